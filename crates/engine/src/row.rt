// A row of the table: the shadows of one slot, by the slot that each is for.
ghost use Rattle.std.specs.Prelude.{◌≡◌, true, map, Some, None, slice_index_or, slice_set};
ghost use Rattle.std.specs.Option.{unwrap_or, option_map};
ghost use Rattle.serial.specs.Machine.{start as started, takes};
ghost use Rattle.serial.specs.Rules.{slots, no_shadows, place_of, better as better_of, furthest_of, any_shadow, count as counted, kept, remaining, spoils, renewed};
ghost use Rattle.engine.specs.View.{seen, stand_of, Room};
ghost use Rattle.engine.specs.SlotSet.{flags};
ghost use Rattle.engine.specs.Table.{row_of, has_shadow, unread, passes, there_at, IsThere, Lent};

use crate::by_slot::BySlot;
use crate::machine::Machine;
use crate::shadow::Shadow;
use crate::slot::Slot;
use crate::slot_set::SlotSet;
use arithmetic::Arithmetic;
use pages::{Reader, StoreFault, WriteEntry};
use script::Step;

#[derive(Clone, Copy)]
pub struct Row {
    shadows: BySlot<Shadow>,
}

impl Row {
    // No shadow at all.
    pub(crate) fn new() -> Row
        ensures { row_of result ≡ no_shadows }
    {
        Row {
            shadows: BySlot::new(Shadow::start()),
        }
    }

    pub(crate) fn get(&self, u: Slot) -> Option<&Shadow>
        ensures { option_map seen result ≡ slice_index_or (row_of self.now) u None }
    {
        self.shadows.get(u)
    }

    // The shadow for u, where it is known that there is one.
    pub(crate) fn known(&self, u: Slot) -> &Shadow
        requires there { has_shadow (row_of self.now) u ≡ true }
        ensures { Some (stand_of result.now) ≡ slice_index_or (row_of self.now) u None }
    {
        self.shadows.known(u)
    }

    // The slots that there is a shadow for.
    pub(crate) fn slots(&self) -> SlotSet
        ensures { flags result ≡ map (has_shadow (row_of self.now)) slots }
    {
        self.shadows.slots()
    }

    // The step of the shadow for u, 0 where there is none.
    pub(crate) fn step_at(&self, u: Slot) -> usize
        ensures { result ≡ place_of (slice_index_or (row_of self.now) u None) }
    {
        self.get(u).map_or(0, |shadow| shadow.step())
    }

    // The shadow for u becomes a copy of the one at a place of the row, or a start where no place is given.
    pub(crate) fn fork(&mut self, u: Slot, from: Option<Slot>)
        requires there { IsThere (row_of self.old) from }
        ensures { row_of self.new ≡ slice_set (row_of self.old) u (Some (unwrap_or (there_at (row_of self.old) from) started)) }
    {
        match from {
            Some(place) => self.shadows.copy(u, place),
            None => self.shadows.put(u, Shadow::start()),
        }
    }

    // Takes the shadow for u away.
    pub(crate) fn take_away(&mut self, u: Slot)
        ensures { row_of self.new ≡ slice_set (row_of self.old) u None }
    {
        self.shadows.take_away(u);
    }

    // Takes every shadow away.
    pub(crate) fn clear(&mut self)
        ensures { row_of self.new ≡ no_shadows }
    {
        self.shadows.clear();
    }

    // How many shadows there are.
    pub(crate) fn count(&self) -> usize
        ensures { result ≡ counted (row_of self.now) }
    {
        self.shadows.count()
    }

    // Whether there is a shadow for u that has read no page of the list.
    fn is_clean(&self, u: Slot, list: &[WriteEntry]) -> bool
        ensures { result ≡ passes (unread list.now) (slice_index_or (row_of self.now) u None) }
    {
        self.get(u).is_some_and(|shadow| !shadow.has_read_any(list))
    }

    // The better of two places: the first, unless the shadow at the other is ahead and has read no page of the list. Steps are
    // looked at first: most shadows are behind.
    fn better(&self, best: Option<Slot>, other: Slot, list: &[WriteEntry]) -> Option<Slot>
        requires there { IsThere (row_of self.now) best }
        ensures rule { there_at (row_of self.now) result ≡ better_of (unread list.now) (there_at (row_of self.now) best) (slice_index_or (row_of self.now) other None) }
        ensures there { IsThere (row_of self.now) result }
    {
        match best {
            Some(known) if self.step_at(other) <= self.step_at(known) => Some(known),
            _ if self.is_clean(other, list) => Some(other),
            _ => best,
        }
    }

    // The place in the row of slot t's furthest shadow that has read no page of the list.
    pub(crate) fn furthest_clean(&self, t: Slot, list: &[WriteEntry]) -> Option<Slot>
        ensures rule { there_at (row_of self.now) result ≡ furthest_of (unread list.now) t (row_of self.now) }
        ensures there { IsThere (row_of self.now) result }
    {
        // A `for`, tried as a `fold`: of `better` only what is at the place that it answers is known, and a fold's
        // proof asks for a function.
        let mut best = self.better(None, t, list);
        for u in self.slots().members() {
            best = self.better(best, u, list);
        }
        best
    }

    // Whether there is a shadow for u that has read a page of the list.
    fn is_reader(&self, u: Slot, own: &[WriteEntry]) -> bool
        ensures { result ≡ spoils own.now (slice_index_or (row_of self.now) u None) }
    {
        self.get(u).is_some_and(|shadow| shadow.has_read_any(own))
    }

    // Drops the shadow for u where it has read a page of the list.
    fn drop_reader(&mut self, u: Slot, own: &[WriteEntry])
        ensures { row_of self.new ≡ slice_set (row_of self.old) u (kept own.now (slice_index_or (row_of self.old) u None)) }
    {
        if self.is_reader(u, own) {
            self.take_away(u);
        }
    }

    // Drops each shadow that has read a page of the list.
    fn drop_readers(&mut self, own: &[WriteEntry])
        ensures { row_of self.new ≡ remaining own.now (row_of self.old) }
    {
        for u in self.slots().members() {
            self.drop_reader(u, own);
        }
    }

    // Slot v's furthest shadow leads from here on, or else one at step 0.
    fn lead_again(&mut self, v: Slot)
        ensures { row_of self.new ≡ slice_set (row_of self.old) v (Some (unwrap_or (furthest_of any_shadow v (row_of self.old)) started)) }
    {
        // No shadow has read a page of the empty list.
        let furthest = self.furthest_clean(v, &[]);
        self.fork(v, furthest);
    }

    // Slot v's row after a commit of the list: without those that have read a page of it, and with a leading shadow still.
    pub(crate) fn renew(&mut self, v: Slot, own: &[WriteEntry])
        requires led { has_shadow (row_of self.old) v ≡ true }
        ensures { row_of self.new ≡ renewed own.now v (row_of self.old) }
    {
        self.drop_readers(own);
        if self.get(v).is_none() {
            self.lead_again(v);
        }
    }

    // Lends the shadow for u to one step.
    pub(crate) fn step<R: Reader, A: Arithmetic>(
        &mut self,
        u: Slot,
        step: &Step,
        machine: &Machine<R, A>,
    ) -> Result<(), StoreFault>
        requires there { has_shadow (row_of self.old) u ≡ true }
        requires room { Room (unwrap_or (slice_index_or (row_of self.old) u None) started) }
        ensures { Lent self.old u (takes (A.Arithmetic.meaning machine.now.arithmetic.now) (R.Reader.pages machine.now.reader.now) step.now (unwrap_or (slice_index_or (row_of self.old) u None) started)) result self.new }
    {
        self.shadows.things[u.index()].take_step(step, machine)
    }
}
