// Accounting: a slot whose leading shadow conflicts with another's gets a shadow for it.
ghost use Rattle.std.specs.Prelude.{◌≡◌, true, map};
ghost use Rattle.std.specs.Option.{option_map};
ghost use Rattle.serial.specs.Machine.{has_read, has_written as stands_on};
ghost use Rattle.serial.specs.Rules.{slots, row as row_at, own_of, reads_of, shadow as shadow_at, lead_writes, clean, furthest_of, has_room, account as accounted, account_read, account_reads, write_conflict, account_write, account_writes, before_step, after_step};
ghost use Rattle.engine.specs.View.{seen};
ghost use Rattle.engine.specs.SlotSet.{flags};
ghost use Rattle.engine.specs.Table.{unguessed, other_open, engine_of, there_at, IsThere};

use super::Table;
use crate::shadow::{Shadow, has_written};
use crate::slot::Slot;
use crate::slot_set::SlotSet;
use pages::WriteEntry;

// What a shadow that may not be there has written.
fn own_of(entry: Option<&Shadow>) -> &[WriteEntry]
    ensures { result.now ≡ own_of (option_map seen entry.entry) }
{
    match entry {
        Some(shadow) => shadow.own(),
        None => &[],
    }
}

impl Table {
    // Whether slot u's leading shadow has written the page.
    pub(crate) fn lead_has_written(&self, u: Slot, page: u32) -> bool
        ensures { result ≡ stands_on (lead_writes (engine_of self.now) u) page }
    {
        has_written(own_of(self.shadow(u, u)), page)
    }

    // Whether slot t has a shadow for u that has read the page.
    fn shadow_has_read(&self, t: Slot, u: Slot, page: u32) -> bool
        ensures { result ≡ has_read (reads_of (shadow_at (engine_of self.now) t u)) page }
    {
        self.shadow(t, u)
            .is_some_and(|shadow| shadow.has_read(page))
    }

    // The place in its row of slot t's furthest shadow that has read nothing u's leading shadow has written.
    fn furthest_for(&self, t: Slot, u: Slot) -> Option<Slot>
        ensures rule { there_at (row_at (engine_of self.now) t) result ≡ furthest_of (clean (engine_of self.now) u) t (row_at (engine_of self.now) t) }
        ensures there { IsThere (row_at (engine_of self.now) t) result }
    {
        self.row(t).furthest_clean(t, own_of(self.shadow(u, u)))
    }

    // Whether slot t has a shadow for u, or may have one more.
    fn has_room(&self, t: Slot, u: Slot) -> bool
        ensures { result ≡ has_room (engine_of self.now) t u }
    {
        self.shadow(t, u).is_some() || self.row(t).count() < self.allowance
    }

    // Slot t's shadow for u goes on from t's furthest that is clean for u, where there is room for it.
    // Not part of the loops over the slots, which stay short so: most steps account for nothing.
    #[inline(never)]
    pub(crate) fn account(&mut self, t: Slot, u: Slot)
        ensures { engine_of self.new ≡ accounted (engine_of self.old) t u }
    {
        if self.has_room(t, u) {
            let furthest = self.furthest_for(t, u);
            self.fork(t, u, furthest);
        }
    }

    // The other open slots than t.
    fn other_open(&self, t: Slot) -> SlotSet
        ensures { flags result ≡ map (other_open (engine_of self.now) t) slots }
    {
        let mut slots = self.open_slots();
        slots.remove(t);
        slots
    }

    // Those of them that t has no shadow for.
    fn unguessed(&self, t: Slot) -> SlotSet
        ensures { flags result ≡ map (unguessed (engine_of self.now) t) slots }
    {
        self.other_open(t).minus(self.row(t).slots())
    }

    // Accounts for slot u, which t has no shadow for, where a store read of the page by t's leading shadow conflicts with it.
    fn account_read(&mut self, t: Slot, page: u32, u: Slot)
        requires unguessed { unguessed (engine_of self.old) t u ≡ true }
        ensures { engine_of self.new ≡ account_read (engine_of self.old) t page u }
    {
        if self.lead_has_written(u, page) {
            self.account(t, u);
        }
    }

    // Accounts for every slot that a store read of the page by t's leading shadow conflicts with.
    pub(crate) fn account_reads(&mut self, t: Slot, page: u32)
        ensures { engine_of self.new ≡ account_reads (engine_of self.old) t page slots }
    {
        // One set for all: to account for a slot takes no other out of it.
        for u in self.unguessed(t).members() {
            self.account_read(t, page, u);
        }
    }

    // Whether a write of the page by t's leading shadow conflicts with another open slot v, which has not guessed it. Reads and
    // writes have calls of their own, down to this one: their rules differ, and at a write v forks for t.
    fn write_conflict(&self, t: Slot, page: u32, v: Slot) -> bool
        requires other { other_open (engine_of self.now) t v ≡ true }
        ensures { result ≡ write_conflict (engine_of self.now) t page v }
    {
        self.shadow_has_read(v, v, page)
            && (self.shadow(v, t).is_none() || self.shadow_has_read(v, t, page))
    }

    fn account_write(&mut self, t: Slot, page: u32, v: Slot)
        requires other { other_open (engine_of self.old) t v ≡ true }
        ensures { engine_of self.new ≡ account_write (engine_of self.old) t page v }
    {
        if self.write_conflict(t, page, v) {
            self.account(v, t);
        }
    }

    // Accounts in every slot that a write of the page by t's leading shadow conflicts with.
    pub(crate) fn account_writes(&mut self, t: Slot, page: u32)
        ensures { engine_of self.new ≡ account_writes (engine_of self.old) t page slots }
    {
        for v in self.other_open(t).members() {
            self.account_write(t, page, v);
        }
    }

    // Before a step of t's leading shadow that is a store read of this page, or none.
    pub(crate) fn before_step(&mut self, t: Slot, page: Option<u32>)
        ensures { engine_of self.new ≡ before_step (engine_of self.old) t page }
    {
        if let Some(page) = page {
            self.account_reads(t, page);
        }
    }

    // After a step of t's leading shadow that wrote this page, or none.
    pub(crate) fn after_step(&mut self, t: Slot, page: Option<u32>)
        ensures { engine_of self.new ≡ after_step (engine_of self.old) t page }
    {
        if let Some(page) = page {
            self.account_writes(t, page);
        }
    }
}
