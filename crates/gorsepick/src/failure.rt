// What ends the program with status 1.
use std::alloc::AllocError;
use std::{fmt, io};

// What is wrong with a line of the scenario.
#[derive(Drop)]
pub(crate) enum Mistake {
    Memory,
    NoCommand(String),
    TooFew(&'static str),
    TooMany(&'static str),
    NoArithmetic(String),
    NoNumber(String),
    NoDigits(String),
    OddDigits,
    NoStore,
    NoScript(String),
}

#[derive(Drop)]
pub(crate) enum Failure {
    Memory,
    Arguments,
    Unread(io::Error),
    Unwritten(io::Error),
    Line { number: usize, mistake: Mistake },
}

// Whatever an allocation fails with.
impl<E: Into<AllocError> + Drop> From<E> for Mistake {
    fn from(_error: E) -> Mistake {
        Mistake::Memory
    }
}

impl From<AllocError> for Failure {
    fn from(_error: AllocError) -> Failure {
        Failure::Memory
    }
}

// Input is read by calls that say so; every other one writes.
impl From<io::Error> for Failure {
    fn from(error: io::Error) -> Failure {
        Failure::Unwritten(error)
    }
}

// What is wrong, then what was expected.
impl fmt::Display for Mistake {
    fn fmt<W: fmt::Write>(&self, f: &mut fmt::Formatter<W>) -> fmt::Result {
        match self {
            Mistake::Memory => f.write_str("no memory left; expected a shorter line"),
            Mistake::NoCommand(word) => write!(
                f,
                "no such command: {word}; expected one that --help lists"
            ),
            Mistake::TooFew(usage) => write!(f, "too few words; expected {usage}"),
            Mistake::TooMany(usage) => write!(f, "too many words; expected {usage}"),
            Mistake::NoArithmetic(word) => write!(
                f,
                "no such arithmetic: {word}; expected counters or flags"
            ),
            Mistake::NoNumber(word) => write!(
                f,
                "no number: {word}; expected decimal digits, 0 to 4294967295"
            ),
            Mistake::NoDigits(word) => write!(
                f,
                "not hexadecimal: {word}; expected digits 0 to 9 and a to f"
            ),
            Mistake::OddDigits => f.write_str(
                "an odd count of hexadecimal digits; expected two a byte",
            ),
            Mistake::NoStore => f.write_str(
                "no store yet; expected flat or log on an earlier line",
            ),
            Mistake::NoScript(name) => write!(
                f,
                "no such script: {name}; expected a name that an earlier script line gave"
            ),
        }
    }
}

impl fmt::Display for Failure {
    fn fmt<W: fmt::Write>(&self, f: &mut fmt::Formatter<W>) -> fmt::Result {
        match self {
            Failure::Memory => f.write_str("gorsepick: no memory left"),
            Failure::Arguments => f.write_str(
                "gorsepick: too many arguments; expected a file, --help or nothing",
            ),
            Failure::Unread(error) => write!(f, "gorsepick: the scenario cannot be read: {error}"),
            Failure::Unwritten(error) => write!(
                f,
                "gorsepick: the answers cannot be written: {error}"
            ),
            Failure::Line { number, mistake } => write!(f, "line {number}: {mistake}"),
        }
    }
}
