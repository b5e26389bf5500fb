// An engine is made where a host has room for it.
ghost use Rattle.std.specs.Prelude.{◌≡◌};
ghost use Rattle.std.specs.Borrow.{sem};
ghost use Rattle.std.specs.Ptr.{points_to, uninit_at};
ghost use Rattle.engine.specs.contracts.engine.Engine.{the_row as EngineRow};
ghost use Rattle.engine.specs.declared.engine.Engine.{Engine};
ghost use Rattle.linked.specs.Host.{engine_bytes};
ghost use Rattle.linked.specs.History.{MadeFresh};

use engine::Engine;
use std::marker::Model;

/// Room for an engine in memory that a host keeps, whatever lies there.
#[repr(C)]
pub struct Room {
    at: *mut Engine,
}

impl Model for Room {
    ghost also_owns = { λ room. uninit_at EngineRow room.at };
}

/// The size of an engine in bytes.
#[unsafe(no_mangle)]
pub extern "C" fn gorsepick_engine_size() -> usize
    ensures { result ≡ engine_bytes }
{
    size_of::<Engine>()
}

// What is written is made apart, so that the proof by hand is about the write alone.
fn fresh() -> Engine
    ensures { MadeFresh result }
{
    Engine::new()
}

/// Makes a fresh engine where there is room: the host has the engine then, and the room no longer.
#[unsafe(no_mangle)]
pub extern "C" fn gorsepick_fresh(room: Room)
    ensures* { ∃ₛ (λ (e : Engine). sem 𝓛 (points_to EngineRow room.at e) ∗ ⌜ MadeFresh e ⌝) }
{
    let Room { at } = room;
    unsafe { at.write(fresh()) };
}
