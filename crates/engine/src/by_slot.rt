// What some of the slots have, by slot.
ghost use Rattle.std.specs.Prelude.{◌≡◌, true, length, map, replicate, is_some, Some, None, slice_index_or, slice_set};
ghost use Rattle.std.specs.List.{filter};
ghost use Rattle.std.specs.Option.{option_copied};
ghost use Rattle.engine.specs.SlotSet.{flags};
ghost use Rattle.engine.specs.BySlot.{by_slot};

use crate::slot::{SLOTS, Slot};
use crate::slot_set::SlotSet;

// Which slots have one lies apart from the things: a look at it touches no thing, and one is taken away by its bit.
// `by_slot` does not see what lies where there is none.
#[derive(Clone, Copy)]
pub struct BySlot<T> {
    there: SlotSet,
    // `Row::step` alone goes past the set, to lend a shadow that is there to a step.
    pub(crate) things: [T; SLOTS],
}

impl<T: Copy> BySlot<T> {
    // Nothing for any slot. `unused` fills the room.
    pub(crate) fn new(unused: T) -> BySlot<T>
        ensures { by_slot result ≡ replicate 8 None }
    {
        BySlot {
            there: SlotSet::new(),
            things: [unused; SLOTS],
        }
    }

    // The slots that have one.
    pub(crate) fn slots(&self) -> SlotSet
        ensures { flags result ≡ map (λ x. is_some x) (by_slot self.now) }
    {
        self.there
    }

    pub(crate) fn has(&self, u: Slot) -> bool
        ensures { result ≡ is_some (slice_index_or (by_slot self.now) u None) }
    {
        self.there.has(u)
    }

    // What a slot has that is known to have one, without a look.
    pub(crate) fn known(&self, u: Slot) -> &T
        requires there { is_some (slice_index_or (by_slot self.now) u None) ≡ true }
        ensures { Some result.now ≡ slice_index_or (by_slot self.now) u None }
    {
        &self.things[u.index()]
    }

    pub(crate) fn get(&self, u: Slot) -> Option<&T>
        ensures { option_copied result ≡ slice_index_or (by_slot self.now) u None }
    {
        if self.has(u) {
            Some(self.known(u))
        } else {
            None
        }
    }

    pub(crate) fn put(&mut self, u: Slot, thing: T)
        ensures { by_slot self.new ≡ slice_set (by_slot self.old) u (Some thing) }
    {
        self.things[u.index()] = thing;
        self.there.insert(u);
    }

    // Slot `to` has from here on what slot `from` has, by a copy from place to place: by way of a value it would be copied
    // three times.
    pub(crate) fn copy(&mut self, to: Slot, from: Slot)
        requires there { is_some (slice_index_or (by_slot self.old) from None) ≡ true }
        ensures { by_slot self.new ≡ slice_set (by_slot self.old) to (slice_index_or (by_slot self.old) from None) }
    {
        self.things[to.index()] = self.things[from.index()];
        self.there.insert(to);
    }

    pub(crate) fn take_away(&mut self, u: Slot)
        ensures { by_slot self.new ≡ slice_set (by_slot self.old) u None }
    {
        self.there.remove(u);
    }

    pub(crate) fn clear(&mut self)
        ensures { by_slot self.new ≡ replicate 8 None }
    {
        self.there = SlotSet::new();
    }

    // How many slots have one.
    pub(crate) fn count(&self) -> usize
        ensures { result ≡ length (filter (λ x. is_some x) (by_slot self.now)) }
    {
        self.there.len()
    }
}
