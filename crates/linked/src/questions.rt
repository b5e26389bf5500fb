// The two questions. They take the handle as the calls do, since memory that only a host knows is not shared with it.
ghost use Rattle.std.specs.Prelude.{◌≡◌};
ghost use Rattle.engine.specs.Table.{engine_of};
ghost use Rattle.serial.specs.Questions.{stand_told, entry_told};
ghost use Rattle.linked.specs.Told.{stand_told_by, entry_told_by};

use crate::handle::Handle;
use crate::told::{Told, told_entry, told_stand};

/// `Engine::stand`. Two values where it is not refused: the step, and 0 for at its end, 1 for waiting, 2 for ready.
#[unsafe(no_mangle)]
pub extern "C" fn gorsepick_stand(engine: &mut Handle, slot: u32, other: u32) -> Told
    ensures told { result ≡ stand_told_by (stand_told (engine_of engine.old.engine.table) slot other) }
    ensures same { engine.new ≡ engine.old }
{
    told_stand(engine.engine().stand(slot, other))
}

/// `Engine::read_entry`. Two values where it is not refused, step and page, or none where there are no more entries.
#[unsafe(no_mangle)]
pub extern "C" fn gorsepick_read_entry(
    engine: &mut Handle,
    slot: u32,
    other: u32,
    index: usize,
) -> Told
    ensures told { result ≡ entry_told_by (entry_told (engine_of engine.old.engine.table) slot other index) }
    ensures same { engine.new ≡ engine.old }
{
    told_entry(engine.engine().read_entry(slot, other, index))
}
