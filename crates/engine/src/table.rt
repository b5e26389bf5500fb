// The table of shadows: a row for each slot, and the scripts of the open slots.
ghost use Rattle.std.specs.Prelude.{◌≡◌, false, find, map, Some, None};
ghost use Rattle.std.specs.Option.{option_map, unwrap_or};
ghost use Rattle.script.specs.View.{steps_of};
ghost use Rattle.serial.specs.Machine.{start as started};
ghost use Rattle.serial.specs.Rules.{slots, fresh_engine, script_of, is_open, row as row_at, shadow as shadow_at, with_shadow, begun, closed, renew, committed};
ghost use Rattle.serial.specs.Sound.{ClosedBare, OpenLed};
ghost use Rattle.engine.specs.View.{seen, steps_seen};
ghost use Rattle.engine.specs.SlotSet.{flags};
ghost use Rattle.engine.specs.Table.{row_of, engine_of, with_allowance, with_rows, without_slot, without_column, there_at, IsThere};

use crate::by_slot::BySlot;
use crate::row::Row;
use crate::shadow::Shadow;
use crate::slot::{SLOTS, Slot};
use crate::slot_set::SlotSet;
use pages::WriteEntry;
use script::{Script, decode};

mod accounting;
mod turn;

// The rules put shadows into any row, so a row is there for a closed slot too.
#[derive(Clone, Copy)]
pub struct Table {
    allowance: usize,
    scripts: BySlot<Script>,
    rows: [Row; SLOTS],
}

impl Table {
    // All slots closed, with room for two shadows each.
    pub(crate) fn new() -> Table
        ensures { engine_of result ≡ fresh_engine }
    {
        // For the room of slots that have not been opened: one step, which sets register 0 to 0, and is never run.
        let unused = decode(&[1, 0x40, 0, 0, 0, 0]).unwrap();
        Table {
            allowance: 2,
            scripts: BySlot::new(unused),
            rows: [Row::new(); SLOTS],
        }
    }

    pub(crate) fn allowance(&self) -> usize
        ensures { result ≡ (engine_of self.now).allowance }
    {
        self.allowance
    }

    pub(crate) fn set_allowance(&mut self, k: usize)
        ensures { engine_of self.new ≡ with_allowance (engine_of self.old) k }
    {
        self.allowance = k;
    }

    pub(crate) fn script(&self, t: Slot) -> Option<&Script>
        ensures { option_map steps_seen result ≡ script_of (engine_of self.now) t }
    {
        self.scripts.get(t)
    }

    pub(crate) fn is_open(&self, t: Slot) -> bool
        ensures { result ≡ is_open (engine_of self.now) t }
    {
        self.scripts.has(t)
    }

    // The open slots.
    fn open_slots(&self) -> SlotSet
        ensures { flags result ≡ map (is_open (engine_of self.now)) slots }
    {
        self.scripts.slots()
    }

    // The lowest open slot.
    pub(crate) fn first_open(&self) -> Option<Slot>
        ensures { result ≡ find (is_open (engine_of self.now)) slots }
    {
        self.open_slots().members().next()
    }

    fn row(&self, t: Slot) -> &Row
        ensures { row_of result.now ≡ row_at (engine_of self.now) t }
    {
        &self.rows[t.index()]
    }

    // Slot t's shadow for u, or its leading shadow where that is t.
    pub(crate) fn shadow(&self, t: Slot, u: Slot) -> Option<&Shadow>
        ensures { option_map seen result ≡ shadow_at (engine_of self.now) t u }
    {
        self.row(t).get(u)
    }

    // Slot t's shadow for u becomes a copy of the one at a place of t's row, or a start where no place is given.
    pub(crate) fn fork(&mut self, t: Slot, u: Slot, from: Option<Slot>)
        requires there { IsThere (row_at (engine_of self.old) t) from }
        ensures { engine_of self.new ≡ with_shadow (engine_of self.old) t u (Some (unwrap_or (there_at (row_at (engine_of self.old) t) from) started)) }
    {
        self.rows[t.index()].fork(u, from);
    }

    // Opens slot t with a leading shadow at step 0.
    pub(crate) fn open_slot(&mut self, t: Slot, script: Script)
        ensures { engine_of self.new ≡ begun (engine_of self.old) t (steps_of script) }
    {
        self.scripts.put(t, script);
        self.fork(t, t, None);
    }

    // Takes away every shadow for slot t.
    fn clear_column(&mut self, t: Slot)
        ensures { engine_of self.new ≡ without_column (engine_of self.old) t }
    {
        // As a slice, whose length a proof keeps.
        for row in &mut self.rows[..] {
            row.take_away(t);
        }
    }

    // Takes away slot t's script and row.
    fn clear_slot(&mut self, t: Slot)
        ensures { engine_of self.new ≡ without_slot (engine_of self.old) t }
    {
        self.scripts.take_away(t);
        self.rows[t.index()].clear();
    }

    // Closes slot t: its row goes, and every shadow for it.
    pub(crate) fn close_slot(&mut self, t: Slot)
        ensures { engine_of self.new ≡ closed (engine_of self.old) t (engine_of self.old).shadows }
    {
        self.clear_slot(t);
        self.clear_column(t);
    }

    // Every row after a commit of closed slot t's list, and without its shadow for t. A closed slot has no shadow, and its
    // row is not looked at.
    fn renew_all(&mut self, t: Slot, own: &[WriteEntry])
        requires shut { is_open (engine_of self.old) t ≡ false }
        requires bare { ClosedBare (engine_of self.old) }
        requires led { OpenLed (engine_of self.old) }
        ensures { engine_of self.new ≡ without_column (with_rows (engine_of self.old) (renew own.now 0 (engine_of self.old).shadows)) t }
    {
        for v in self.open_slots().members() {
            let row = &mut self.rows[v.index()];
            row.renew(v, own);
            row.take_away(t);
        }
    }

    // Slot t's list is put: others that read from it go on without what they read, and t closes.
    pub(crate) fn commit_slot(&mut self, t: Slot, own: &[WriteEntry])
        requires bare { ClosedBare (engine_of self.old) }
        requires led { OpenLed (engine_of self.old) }
        ensures { engine_of self.new ≡ committed (engine_of self.old) t own.now }
    {
        // t's own row first: it need not be renewed.
        self.clear_slot(t);
        self.renew_all(t, own);
    }
}
