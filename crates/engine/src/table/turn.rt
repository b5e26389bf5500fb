// Turns: what a shadow's next turn finds, and the step that it takes.
ghost use Rattle.std.specs.Prelude.{◌≡◌, true, length, is_some, Some};
ghost use Rattle.script.specs.View.{steps_of};
ghost use Rattle.serial.specs.Machine.{takes};
ghost use Rattle.serial.specs.Alone.{next, on_list};
ghost use Rattle.serial.specs.Rules.{script_of, shadow as shadow_at, with_shadow, place_of, lead_writes, shadow_moves, waits as has_to_wait, standing as stands};
ghost use Rattle.engine.specs.View.{stand_of, Room};
ghost use Rattle.engine.specs.Named.{NamedBy, script_at, stand_at};
ghost use Rattle.engine.specs.Table.{engine_of, checked, lead_takes, shadow_takes, Stepped, TookTurn};

use super::Table;
use crate::machine::Machine;
use crate::shadow::Shadow;
use crate::slot::Slot;
use arithmetic::Arithmetic;
use pages::{Reader, StoreFault};
use script::{Script, Step};
use serial::{CallFault, Standing, StepFault};

// Whether the reader has the page that a step is for, where it is for one.
fn check_page<R: Reader>(page: Option<u32>, reader: &R) -> Result<(), StoreFault>
    ensures { result ≡ checked (length (R.Reader.pages reader.now)) page }
{
    match page {
        Some(page) if page >= reader.size() => Err(StoreFault { page }),
        _ => Ok(()),
    }
}

impl Table {
    // The slots by which a call names a shadow, or why there is none.
    pub(crate) fn named(&self, slot: u32, other: u32) -> Result<(Slot, Slot), CallFault>
        ensures { NamedBy (engine_of self.now) slot other result }
    {
        let t = Slot::try_from(slot)?;
        let u = Slot::try_from(other)?;
        self.script(t).ok_or(CallFault::NotOpen(slot))?;
        self.shadow(t, u).ok_or(CallFault::NoShadow(other))?;
        Ok((t, u))
    }

    // The script of an open slot.
    fn script_at(&self, t: Slot) -> &Script
        requires open { is_some (script_of (engine_of self.now) t) ≡ true }
        ensures { steps_of result.now ≡ script_at (engine_of self.now) t }
    {
        self.scripts.known(t)
    }

    // A shadow that is there.
    pub(crate) fn shadow_at(&self, t: Slot, u: Slot) -> &Shadow
        requires there { is_some (shadow_at (engine_of self.now) t u) ≡ true }
        ensures { stand_of result.now ≡ stand_at (engine_of self.now) t u }
    {
        self.row(t).known(u)
    }

    // Where slot t's leading shadow stands.
    fn lead_step(&self, t: Slot) -> usize
        ensures { result ≡ place_of (shadow_at (engine_of self.now) t t) }
    {
        self.row(t).step_at(t)
    }

    fn is_on_list(&self, u: Slot, page: Option<u32>) -> bool
        ensures { result ≡ on_list (lead_writes (engine_of self.now) u) page }
    {
        page.is_some_and(|page| self.lead_has_written(u, page))
    }

    // Whether a shadow for another slot waits, for its own slot's leading shadow or for what the other's is to write.
    fn waits(&self, t: Slot, u: Slot, script: &Script, shadow: &Shadow) -> bool
        ensures { result ≡ has_to_wait (engine_of self.now) t u (steps_of script.now) (stand_of shadow.now) }
    {
        let step = script.step(shadow.step());
        self.lead_step(t) <= shadow.step() || self.is_on_list(u, shadow.store_read(step))
    }

    // What the next turn of slot t's shadow for u finds.
    pub(crate) fn standing(&self, t: Slot, u: Slot) -> Standing
        requires open { is_some (script_of (engine_of self.now) t) ≡ true }
        requires there { is_some (shadow_at (engine_of self.now) t u) ≡ true }
        ensures { result ≡ stands (engine_of self.now) t u (script_at (engine_of self.now) t) (stand_at (engine_of self.now) t u) }
    {
        let script = self.script_at(t);
        let shadow = self.shadow_at(t, u);
        if u == t {
            if script.len() <= shadow.step() {
                Standing::AtEnd
            } else {
                Standing::Ready
            }
        } else if self.waits(t, u, script, shadow) {
            Standing::Halted
        } else {
            Standing::Ready
        }
    }

    // Lends t's shadow for u to one step.
    fn step<R: Reader, A: Arithmetic>(
        &mut self,
        t: Slot,
        u: Slot,
        step: &Step,
        machine: &Machine<R, A>,
    ) -> Result<(), StoreFault>
        requires there { is_some (shadow_at (engine_of self.old) t u) ≡ true }
        requires room { Room (stand_at (engine_of self.old) t u) }
        ensures { Stepped self.old (λ e. with_shadow (engine_of self.old) t u (Some e)) (takes (A.Arithmetic.meaning machine.now.arithmetic.now) (R.Reader.pages machine.now.reader.now) step.now (stand_at (engine_of self.old) t u)) result self.new }
    {
        self.rows[t.index()].step(u, step, machine)
    }

    // One step of t's leading shadow. Nothing is accounted for where the reader does not have the step's page.
    fn step_lead<R: Reader, A: Arithmetic>(
        &mut self,
        t: Slot,
        step: &Step,
        machine: &Machine<R, A>,
    ) -> Result<(), StoreFault>
        requires there { is_some (shadow_at (engine_of self.old) t t) ≡ true }
        requires room { Room (stand_at (engine_of self.old) t t) }
        ensures { Stepped self.old (λ e. lead_takes (engine_of self.old) t step.now (stand_at (engine_of self.old) t t) e) (takes (A.Arithmetic.meaning machine.now.arithmetic.now) (R.Reader.pages machine.now.reader.now) step.now (stand_at (engine_of self.old) t t)) result self.new }
    {
        let lead = self.shadow_at(t, t);
        let read = lead.store_read(Some(*step));
        let written = lead.write_of(Some(*step));
        check_page(read.or(written), machine.reader)?;
        self.before_step(t, read);
        self.step(t, t, step, machine)?;
        self.after_step(t, written);
        Ok(())
    }

    // One step of a shadow: only those of a leading shadow are accounted for.
    fn step_shadow<R: Reader, A: Arithmetic>(
        &mut self,
        t: Slot,
        u: Slot,
        step: &Step,
        machine: &Machine<R, A>,
    ) -> Result<(), StoreFault>
        requires there { is_some (shadow_at (engine_of self.old) t u) ≡ true }
        requires room { Room (stand_at (engine_of self.old) t u) }
        ensures { Stepped self.old (λ e. shadow_takes (engine_of self.old) t u step.now (stand_at (engine_of self.old) t u) e) (takes (A.Arithmetic.meaning machine.now.arithmetic.now) (R.Reader.pages machine.now.reader.now) step.now (stand_at (engine_of self.old) t u)) result self.new }
    {
        if u == t {
            self.step_lead(t, step, machine)
        } else {
            self.step(t, u, step, machine)
        }
    }

    // A turn of slot t's shadow for u, where it is able to try a step.
    pub(crate) fn take_turn<R: Reader, A: Arithmetic>(
        &mut self,
        t: Slot,
        u: Slot,
        machine: &Machine<R, A>,
    ) -> Result<(), StepFault>
        requires open { is_some (script_of (engine_of self.old) t) ≡ true }
        requires there { is_some (shadow_at (engine_of self.old) t u) ≡ true }
        requires room { Room (stand_at (engine_of self.old) t u) }
        ensures { TookTurn self.old (λ e. shadow_moves (engine_of self.old) t u (script_at (engine_of self.old) t) (stand_at (engine_of self.old) t u) e) t (stand_at (engine_of self.old) t u).step (next (A.Arithmetic.meaning machine.now.arithmetic.now) (script_at (engine_of self.old) t) (R.Reader.pages machine.now.reader.now) (stand_at (engine_of self.old) t u)) result self.new }
    {
        let number = self.shadow_at(t, u).step();
        if let Some(step) = self.script_at(t).step(number) {
            self.step_shadow(t, u, &step, machine)
                .map_err(|fault| (u32::from(t), number, fault))?;
        }
        Ok(())
    }
}
