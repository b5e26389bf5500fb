// Questions, which change nothing.
ghost use Rattle.std.specs.Prelude.{◌≡◌};
ghost use Rattle.std.specs.Option.{option_map};
ghost use Rattle.serial.specs.Rules.{shadow as shadow_at};
ghost use Rattle.engine.specs.View.{stand_of};
ghost use Rattle.engine.specs.Table.{engine_of};
ghost use Rattle.serial.specs.Questions.{stand_told, entry_told};

use super::Engine;
use crate::shadow::Shadow;
use crate::slot::Slot;
use serial::{CallFault, ReadEntry, Standing};

impl Engine {
    /// A shadow's step, 0 to 16, and what its next turn would find. Refused, in this order, with 1, 7 and 8
    /// (docs/REFUSALS.md).
    pub fn stand(&self, slot: u32, other: u32) -> Result<(usize, Standing), CallFault>
        ensures { result ≡ stand_told (engine_of self.now.table) slot other }
    {
        let (t, u) = self.table.named(slot, other)?;
        Ok((self.table.shadow_at(t, u).step(), self.table.standing(t, u)))
    }

    /// The step and page of a shadow's recorded read, by its index from 0, or none where it has no more. Refused as `stand`.
    pub fn read_entry(
        &self,
        slot: u32,
        other: u32,
        index: usize,
    ) -> Result<Option<ReadEntry>, CallFault>
        ensures { result ≡ entry_told (engine_of self.now.table) slot other index }
    {
        let (t, u) = self.table.named(slot, other)?;
        Ok(self.table.shadow_at(t, u).read(index))
    }

    /// A copy of a shadow, or none where a slot number is above 7, the slot is not open, or there is no such shadow.
    pub fn shadow(&self, slot: u32, other: u32) -> Option<Shadow>
        ensures { option_map stand_of result ≡ shadow_at (engine_of self.now.table) slot other }
    {
        let t = Slot::try_from(slot).ok()?;
        let u = Slot::try_from(other).ok()?;
        self.table.shadow(t, u).copied()
    }
}
