// The engine: up to eight transactions side by side, each with its shadows.
ghost use Rattle.serial.specs.Sound.{Eight, AllowanceFits, ClosedBare, OpenLed, WithinAllowance, ForOpen, ScriptsFit, ShadowsFit};
ghost use Rattle.engine.specs.Table.{engine_of};

use crate::table::Table;

mod booking;
mod calls;
mod questions;

pub use booking::{Call, carry_out};

/// A transaction engine: eight slots with their scripts, and the shadows that run them. The rules are in docs/ENGINE.md.
/// However one was come by, it is sound (`SoundEngine`): that is what its ghost fields hold.
#[derive(Drop)]
pub struct Engine {
    table: Table,
    ghost eight: { Eight (engine_of table) },
    ghost allowance: { AllowanceFits (engine_of table) },
    ghost bare: { ClosedBare (engine_of table) },
    ghost led: { OpenLed (engine_of table) },
    ghost few: { WithinAllowance (engine_of table) },
    ghost open: { ForOpen (engine_of table) },
    ghost scripts: { ScriptsFit (engine_of table) },
    ghost shadows: { ShadowsFit (engine_of table) },
}
