// The engine: shadows, and scripts that they run.
#![tactic(auto)]

mod alone;
mod by_slot;
mod engine;
mod machine;
mod row;
mod shadow;
mod slot;
mod slot_set;
mod table;

pub use alone::{AloneFault, run_alone};
pub use engine::{Call, Engine, carry_out};
pub use shadow::Shadow;
