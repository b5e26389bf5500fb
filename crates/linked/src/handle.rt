// An engine in memory that a host keeps.
ghost use Rattle.std.specs.Prelude.{◌≡◌};
ghost use Rattle.std.specs.Borrow.{Lends, sem};
ghost use Rattle.std.specs.Ptr.{points_to};
ghost use Rattle.engine.specs.contracts.engine.Engine.{the_row as EngineRow};
ghost use Rattle.engine.specs.declared.engine.Engine.{Engine};

use engine::Engine;
use std::marker::Model;

/// Where a host has its engine. The engine itself cannot cross to C, since its memory has enums; a pointer to it can.
#[repr(C)]
pub struct Handle {
    at: *mut Engine,
    pub ghost engine: { Engine },
}

// Whoever has the handle has the memory behind the pointer, and the engine that lies there.
impl Model for Handle {
    ghost also_owns = { λ h. points_to EngineRow h.at h.engine };
}

impl Handle {
    ghost use Rattle.linked.specs.contracts.handle.Handle.{the_row as HandleRow};
    ghost use Rattle.linked.specs.Handle.{holding};

    // The engine, lent for as long as the handle is.
    pub(crate) fn engine(&mut self) -> &mut Engine
        ensures* writes_back { sem 𝓛 (Lends HandleRow EngineRow self.entry result (holding self.old)) }
        ensures value { result.now ≡ self.old.engine }
    {
        unsafe { &mut *self.at }
    }
}
