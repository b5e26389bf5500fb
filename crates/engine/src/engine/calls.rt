// The five calls.
ghost use Rattle.std.specs.Prelude.{◌≡◌, ℕ, List, None, OnErr};
ghost use Rattle.serial.specs.declared.fault.Accepted.TheVariants.{Allowed, Begun, Took, Aborted};
ghost use Rattle.serial.specs.Rules.{fresh_engine, lead_writes, first_off, allows, begins, turns, commits, aborts, set_allowance, begin, turn, commit, abort};
ghost use Rattle.serial.specs.History.{Continued};
ghost use Rattle.engine.specs.Table.{engine_of};
ghost use Rattle.engine.specs.Alone.{Inside};
ghost use Rattle.engine.specs.Calls.{state_of, answers_by, committing, PutsList, OnNoStep};
ghost use Rattle.engine.specs.History.{AsFreshOverAny, ContinuedByAny, ContinuedOverAny};

use super::Engine;
use crate::alone::put_all;
use crate::machine::Machine;
use crate::slot::{SLOTS, Slot};
use crate::table::Table;
use arithmetic::Arithmetic;
use pages::{Reader, Store, StoreFault, WriteEntry};
use script::{Register, decode};
use serial::{CallFault, Standing, Turned};

// The first page of a list that is not below the size.
fn first_missing(own: &[WriteEntry], size: u32) -> Option<u32>
    ensures rule { result ≡ first_off size own.now }
    ensures inside { result ≡ None → Inside size own.now }
{
    own.iter()
        .map(|entry| entry.page)
        .find(|page| *page >= size)
}

// That a refusal leaves the engine as it was is a clause of each call, where its reader looks for it.
impl Engine {
    /// An engine with allowance 2 and no slot open.
    #[tactic(auto, using(crate::proofs::Continues::as_fresh_any))]
    pub fn new() -> Engine
        ensures rule { engine_of result.table ≡ fresh_engine }
        ensures history { AsFreshOverAny result }
    {
        Engine {
            table: Table::new(),
        }
    }

    /// Sets, while no slot is open, how many shadows a slot may have at once, its leading one among them: 1 to 8. Refused,
    /// in this order, with 2 and 3. (Numbers and values are in docs/REFUSALS.md, the calls in docs/ENGINE.md.)
    #[tactic(auto, using(crate::proofs::Continues::over_any))]
    pub fn set_allowance(&mut self, k: u32) -> Result<(), CallFault>
        ensures rule { (pages : List ℕ) → allows (state_of self.old pages) k ≡ (state_of self.new pages, answers_by (λ _. Allowed) result) }
        ensures history { ContinuedOverAny self.old (set_allowance k)
            (answers_by (λ _. Allowed) result) self.new }
        ensures declined { OnErr result (self.new.table ≡ self.old.table) }
    {
        if k < 1 || k > SLOTS as u32 {
            return Err(CallFault::BadAllowance(k));
        }
        if let Some(slot) = self.table.first_open() {
            return Err(CallFault::SlotsOpen(slot.into()));
        }
        self.table.set_allowance(k as usize);
        Ok(())
    }

    /// Opens a slot, 0 to 7, with the script that 1 + 5n bytes say (docs/SCRIPTS.md); the bytes are not kept. Its leading
    /// shadow starts at step 0. Refused, in this order, with 1, 4, 5 and 6.
    #[tactic(auto, using(crate::proofs::Continues::over_any))]
    pub fn begin(&mut self, slot: u32, script: &[u8]) -> Result<(), CallFault>
        ensures rule { (pages : List ℕ) → begins (state_of self.old pages) slot script.now ≡ (state_of self.new pages, answers_by (λ _. Begun) result) }
        ensures history { ContinuedOverAny self.old (begin slot script.now)
            (answers_by (λ _. Begun) result) self.new }
        ensures declined { OnErr result (self.new.table ≡ self.old.table) }
    {
        let t = Slot::try_from(slot)?;
        if self.table.is_open(t) {
            return Err(CallFault::AlreadyOpen(slot));
        }
        let steps = decode(script)?;
        self.table.open_slot(t, steps);
        Ok(())
    }

    /// One step of a slot's shadow for another slot, or of its leading shadow where both are the same, unless it has ended
    /// or waits. Writes go to the shadow's own list, and so do reads of a page on it; other reads go to the reader.
    /// Refused, in this order, with 1, 7, 8 and 9.
    pub fn turn<R: Reader, A: Arithmetic>(
        &mut self,
        slot: u32,
        other: u32,
        reader: &R,
        arithmetic: &A,
    ) -> Result<Turned, CallFault>
        ensures rule { turns (A.Arithmetic.meaning arithmetic.now) (state_of self.old (R.Reader.pages reader.now)) slot other ≡ (state_of self.new (R.Reader.pages reader.now), answers_by Took result) }
        ensures history { Continued (A.Arithmetic.meaning arithmetic.now)
            (state_of self.old (R.Reader.pages reader.now))
            (turn slot other) (answers_by Took result)
            (state_of self.new (R.Reader.pages reader.now)) }
        ensures no_step { OnNoStep result (self.new.table ≡ self.old.table) }
        ensures declined { OnErr result (self.new.table ≡ self.old.table) }
    {
        let (t, u) = self.table.named(slot, other)?;
        match self.table.standing(t, u) {
            Standing::AtEnd => Ok(Turned::Ended),
            Standing::Halted => Ok(Turned::Waiting),
            Standing::Ready => {
                self.table.take_turn(t, u, &Machine { reader, arithmetic })?;
                Ok(Turned::Moved)
            }
        }
    }

    /// Puts the own list of a slot's leading shadow, which has to be at its end, and closes the slot. A slot whose leading
    /// shadow had read a page that is put goes on from a copy of its furthest shadow that had read none, or else from step
    /// 0. Answers register 0 and how many pages were put. Refused, in this order, with 1, 7, 10 and 11.
    #[tactic(auto, using(crate::proofs::Continues::by_any))]
    pub fn commit<S: Store>(&mut self, slot: u32, store: &mut S) -> Result<(u32, usize), CallFault>
        ensures rule { commits (state_of self.old (S.Reader.pages store.old)) slot ≡ (state_of self.new (S.Reader.pages store.new), answers_by committing result) }
        ensures history { ContinuedByAny (state_of self.old (S.Reader.pages store.old))
            (commit slot) (answers_by committing result)
            (state_of self.new (S.Reader.pages store.new)) }
        ensures puts { PutsList S.Store.wrote (lead_writes (engine_of self.old.table) slot) store.old result store.new }
        ensures declined { OnErr result (self.new.table ≡ self.old.table) }
    {
        let t = Slot::try_from(slot)?;
        let script = self.table.script(t).ok_or(CallFault::NotOpen(slot))?;
        let lead = self.table.shadow_at(t, t);
        if lead.step() < script.len() {
            return Err(CallFault::NotEnded(lead.step()));
        }
        if let Some(page) = first_missing(lead.own(), store.size()) {
            return Err(CallFault::Unwritable(slot, StoreFault { page }));
        }
        put_all(lead.own(), store);
        let word = lead.register(Register::R0);
        // A copy, since the table changes while the list is gone over.
        let own = lead.own_copy();
        self.table.commit_slot(t, own.as_slice());
        Ok((word, own.len()))
    }

    /// Closes a slot, and puts nothing. Refused, in this order, with 1 and 7.
    #[tactic(auto, using(crate::proofs::Continues::over_any))]
    pub fn abort(&mut self, slot: u32) -> Result<(), CallFault>
        ensures rule { (pages : List ℕ) → aborts (state_of self.old pages) slot ≡ (state_of self.new pages, answers_by (λ _. Aborted) result) }
        ensures history { ContinuedOverAny self.old (abort slot)
            (answers_by (λ _. Aborted) result) self.new }
        ensures declined { OnErr result (self.new.table ≡ self.old.table) }
    {
        let t = Slot::try_from(slot)?;
        if !self.table.is_open(t) {
            return Err(CallFault::NotOpen(slot));
        }
        self.table.close_slot(t);
        Ok(())
    }
}
