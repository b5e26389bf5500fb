// What a scenario asks for, line by line.
ghost use Rattle.std.specs.Prelude.{◌≡◌};
ghost use Rattle.engine.specs.Booking.{call_of};
ghost use Rattle.gorsepick.specs.Made.{call_made};

use crate::memory::Memory;
use arithmetic::Delivered;
use engine::Call;

// A command, and its words as they are shown again beside the answer.
#[derive(Drop)]
pub(crate) struct Line {
    pub(crate) text: String,
    pub(crate) command: Command,
}

#[derive(Drop)]
pub(crate) enum Command {
    // a store over this memory
    Store(Memory),
    Arithmetic(Delivered),
    // its bytes are kept as the scenario is read
    Script,
    Image(Vec<u8>),
    Words,
    Ask(Request),
    // one of the five calls
    Make(Made),
    Look(Question),
}

// What is asked of the engine, between calls, or of the serial book.
#[derive(Drop)]
pub(crate) enum Question {
    Stand { slot: u32, other: u32 },
    Entry { slot: u32, other: u32, index: u32 },
    Shadows,
    Book,
}

// One of the five calls, with the bytes that it is made with: the engine's own `Call` only borrows them.
#[derive(Drop)]
pub(crate) enum Made {
    Allow { allowance: u32 },
    Begin { slot: u32, bytes: Vec<u8> },
    Turn { slot: u32, other: u32 },
    Commit { slot: u32 },
    Abort { slot: u32 },
}

impl Made {
    // The call, for the engine.
    pub(crate) fn as_call(&self) -> Call<'_>
        ensures { call_of result ≡ call_made self.now }
    {
        match self {
            Made::Allow { allowance } => Call::SetAllowance {
                allowance: *allowance,
            },
            Made::Begin { slot, bytes } => Call::Begin {
                slot: *slot,
                script: bytes.as_slice(),
            },
            Made::Turn { slot, other } => Call::Turn {
                slot: *slot,
                other: *other,
            },
            Made::Commit { slot } => Call::Commit { slot: *slot },
            Made::Abort { slot } => Call::Abort { slot: *slot },
        }
    }

    // Whether the call goes to the store.
    fn needs_store(&self) -> bool {
        matches!(self, Made::Turn { .. } | Made::Commit { .. })
    }
}

// What is asked of the store, whichever kind it is.
#[derive(Drop)]
pub(crate) enum Request {
    Size,
    Get { page: u32 },
    Put { page: u32, word: u32 },
    Pages,
    Load(Vec<u8>),
    // the bytes of a script, to be run alone
    Alone(Vec<u8>),
}

impl Command {
    // Whether an earlier line has to give a store.
    pub(crate) fn needs_store(&self) -> bool {
        match self {
            Command::Words | Command::Ask(_) | Command::Look(Question::Book) => true,
            Command::Make(made) => made.needs_store(),
            _ => false,
        }
    }
}
