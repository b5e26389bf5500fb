// The engine for hosts in C, over memory that the host keeps: include/gorsepick.h has the same functions for C.
#![tactic(auto)]

mod calls;
mod fresh;
mod handle;
mod memory;
mod questions;
mod told;
