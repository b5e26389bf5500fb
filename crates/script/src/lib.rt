// Scripts: what a transaction does, decoded from the bytes that the host hands over.
#![tactic(auto)]

ghost use Rattle.std.specs.Prelude.{◌≡◌, ℕ, List};
ghost use Rattle.script.specs.Script.{index, script_cause, script_returned};

use arithmetic::Operation;
use basics::{Refusal, Trail};

mod decoding;

pub use decoding::decode;

// One of the four registers.
#[derive(Clone, Copy, PartialEq, Eq, Debug)]
pub enum Register {
    R0,
    R1,
    R2,
    R3,
}

// A register's place among the four.
impl From<Register> for usize {
    ghost from_gives = { λ register n. n ≡ index register };

    fn from(register: Register) -> usize {
        register as usize
    }
}

// What a step does, with its registers. The operand beside it is a page number, a word or a count of steps.
#[derive(Clone, Copy, PartialEq, Eq, Debug)]
pub enum Action {
    // the first register takes the page numbered by the operand
    Read(Register),
    // the first takes the page numbered by the operand and the second
    ReadIndexed(Register, Register),
    // the page numbered by the operand takes the register
    Write(Register),
    // the page numbered by the operand and the second takes the first
    WriteIndexed(Register, Register),
    // the register takes the operand
    Set(Register),
    // the first takes what the arithmetic answers to the operation and both
    Combine(Operation, Register, Register),
    // where both are equal, the operand says how many of the next steps are left out
    Skip(Register, Register),
}

#[derive(Clone, Copy, PartialEq, Eq, Debug)]
pub struct Step {
    pub action: Action,
    pub operand: u32,
}

// No script has more steps than these.
pub const MOST_STEPS: usize = 16;

// A decoded script.
#[derive(Clone, Copy, Debug)]
pub struct Script {
    steps: Trail<Step, MOST_STEPS>,
}

// Why bytes are no script.
#[derive(Clone, Copy, PartialEq, Eq, Debug)]
pub enum ScriptFault {
    // no bytes, a size that is not 1 to 16, or another length than the size asks for: the length
    Unfit(usize),
    // the first step that is not defined: its number
    Undefined(usize),
}

impl Refusal for ScriptFault {
    ghost cause = { script_cause };

    ghost returned = { script_returned };

    fn number(&self) -> u32 {
        match self {
            ScriptFault::Unfit(_) => 5,
            ScriptFault::Undefined(_) => 6,
        }
    }

    fn value(&self, index: usize) -> Option<usize> {
        match self {
            ScriptFault::Unfit(length) => [*length].get(index).copied(),
            ScriptFault::Undefined(step) => [*step].get(index).copied(),
        }
    }
}
