// Why a call is declined, and what calls answer.
ghost use Rattle.std.specs.Prelude.{◌≡◌, Some};
ghost use Rattle.pages.specs.declared.StoreFault.{StoreFault};
ghost use Rattle.serial.specs.Faults.{call_cause, call_returned, step_fault};
ghost use Rattle.serial.specs.Shown.{turned_word, standing_word, accepted_words};
ghost use Rattle.serial.specs.declared.fault.CallFault.TheVariants.{Undecoded, OffPages};

use basics::Refusal;
use pages::StoreFault;
use script::ScriptFault;
use std::fmt;

// A step for a page that the store does not have: the slot, the step and the whole store fault.
#[derive(Clone, Copy, PartialEq, Eq, Debug)]
pub struct StepFault {
    pub slot: u32,
    pub step: usize,
    pub fault: StoreFault,
}

// The step code puts slot and step beside the store's fault, and the project wants this conversion of the three.
impl From<(u32, usize, StoreFault)> for StepFault {
    ghost from_gives = { λ f r. r ≡ step_fault f.0 f.1 f.2 };

    fn from(at: (u32, usize, StoreFault)) -> StepFault {
        let (slot, step, fault) = at;
        StepFault { slot, step, fault }
    }
}

// Why a call is declined, by the first check that fails.
#[derive(Clone, Copy, PartialEq, Eq, Debug)]
pub enum CallFault {
    // a slot number above 7
    NoSlot(u32),
    // an allowance of 0 or above 8
    BadAllowance(u32),
    // set allowance while a slot is open: the lowest such
    SlotsOpen(u32),
    // begin on an open slot
    AlreadyOpen(u32),
    // begin with bytes that are no script
    Undecoded(ScriptFault),
    // a slot that is not open
    NotOpen(u32),
    // no shadow of the slot for this one
    NoShadow(u32),
    // a step for a page that the store does not have
    OffPages(StepFault),
    // commit before the end: where the leading shadow stands
    NotEnded(usize),
    // commit with a written page that the store does not have: the slot and the first such page's fault
    Unwritable(u32, StoreFault),
}

impl From<ScriptFault> for CallFault {
    ghost from_gives = { λ f r. r ≡ Undecoded f };

    fn from(fault: ScriptFault) -> CallFault {
        CallFault::Undecoded(fault)
    }
}

impl From<StepFault> for CallFault {
    ghost from_gives = { λ f r. r ≡ OffPages f };

    fn from(fault: StepFault) -> CallFault {
        CallFault::OffPages(fault)
    }
}

impl Refusal for CallFault {
    ghost cause = { call_cause };

    ghost returned = { call_returned };

    fn number(&self) -> u32 {
        match self {
            CallFault::NoSlot(_) => 1,
            CallFault::BadAllowance(_) => 2,
            CallFault::SlotsOpen(_) => 3,
            CallFault::AlreadyOpen(_) => 4,
            CallFault::Undecoded(fault) => fault.number(),
            CallFault::NotOpen(_) => 7,
            CallFault::NoShadow(_) => 8,
            CallFault::OffPages(_) => 9,
            CallFault::NotEnded(_) => 10,
            CallFault::Unwritable(_, _) => 11,
        }
    }

    fn value(&self, index: usize) -> Option<usize> {
        match self {
            CallFault::NoSlot(n)
            | CallFault::BadAllowance(n)
            | CallFault::SlotsOpen(n)
            | CallFault::AlreadyOpen(n)
            | CallFault::NotOpen(n)
            | CallFault::NoShadow(n) => [*n as usize].get(index).copied(),
            CallFault::Undecoded(fault) => fault.value(index),
            CallFault::OffPages(at) => [at.slot as usize, at.step, at.fault.page as usize]
                .get(index)
                .copied(),
            CallFault::NotEnded(step) => [*step].get(index).copied(),
            CallFault::Unwritable(slot, fault) => {
                [*slot as usize, fault.page as usize].get(index).copied()
            }
        }
    }
}

// How a turn ends.
#[derive(Clone, Copy, PartialEq, Eq, Debug)]
pub enum Turned {
    Moved,
    Ended,
    Waiting,
}

impl fmt::Display for Turned {
    ghost output = { λ x. Some (turned_word x) };

    fn fmt<W: fmt::Write>(&self, f: &mut fmt::Formatter<W>) -> fmt::Result {
        f.write_str(match self {
            Turned::Moved => "moved",
            Turned::Ended => "ended",
            Turned::Waiting => "waiting",
        })
    }
}

// What a shadow's next turn finds: a leading shadow at its end, a shadow that waits, or one able to try a step.
#[derive(Clone, Copy, PartialEq, Eq, Debug)]
pub enum Standing {
    AtEnd,
    Halted,
    Ready,
}

impl fmt::Display for Standing {
    ghost output = { λ x. Some (standing_word x) };

    fn fmt<W: fmt::Write>(&self, f: &mut fmt::Formatter<W>) -> fmt::Result {
        f.write_str(match self {
            Standing::AtEnd => "ended",
            Standing::Halted => "waiting",
            Standing::Ready => "ready",
        })
    }
}

// What an accepted call answers.
#[derive(Clone, Copy, PartialEq, Eq, Debug)]
pub enum Accepted {
    Allowed,
    Begun,
    Took(Turned),
    // register 0 and the number of pages put
    Committed(u32, usize),
    Aborted,
}

impl fmt::Display for Accepted {
    ghost output = { λ x. Some (accepted_words x) };

    fn fmt<W: fmt::Write>(&self, f: &mut fmt::Formatter<W>) -> fmt::Result {
        match self {
            Accepted::Allowed => f.write_str("allowed"),
            Accepted::Begun => f.write_str("begun"),
            Accepted::Took(turned) => write!(f, "{turned}"),
            Accepted::Committed(word, pages) => write!(f, "committed {word} {pages}"),
            Accepted::Aborted => f.write_str("aborted"),
        }
    }
}

// What one of the five calls answers.
pub type Answer = Result<Accepted, CallFault>;
