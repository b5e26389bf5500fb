// What a command answers.
ghost use Rattle.std.specs.Prelude.{◌≡◌, ◌++◌, take, IfOk, OnOk, OnErr, IsErr, MatchResult};
ghost use Rattle.std.specs.Option.{option_to_list};
ghost use Rattle.gorsepick.specs.Answers.{Refuses};

use basics::Refusal;
use serial::{Accepted, ReadEntry, Standing};
use std::alloc::{AllocError, Global};
use std::fmt;

// No refusal tells more values than these.
const MOST_VALUES: usize = 3;

#[derive(Drop)]
pub(crate) enum Answer {
    Size(u32),
    Word(u32),
    Fault { page: u32 },
    Written,
    Pages(Vec<u32>),
    Words(Vec<u32>),
    Loaded,
    // a script run alone came to its end: register 0, and the number of pages put
    Finished { word: u32, pages: usize },
    // a script run alone came to a step for a page that is not there
    Stopped { step: usize, page: u32 },
    Refused { number: u32, values: Vec<usize> },
    // one of the five calls was accepted
    Accepted(Accepted),
    Stands { step: usize, standing: Standing },
    // a recorded read, where there is one
    Read(Option<ReadEntry>),
    Shadows { count: usize },
}

impl Answer {
    // Whether the host has put pages of the store.
    pub(crate) fn is_change(&self) -> bool {
        matches!(
            self,
            Answer::Written | Answer::Loaded | Answer::Finished { .. }
        )
    }

    // Whether the call was declined.
    pub(crate) fn is_declined(&self) -> bool {
        matches!(
            self,
            Answer::Fault { .. } | Answer::Stopped { .. } | Answer::Refused { .. }
        )
    }
}

// A refusal of any layer, as an answer.
pub(crate) fn refused<F: Refusal>(heap: Global, fault: &F) -> Result<Answer, AllocError>
    ensures { IfOk result (Refuses (F.Refusal.cause fault.now) (F.Refusal.returned fault.now)) }
{
    let number = fault.number();
    let values = refusal_values(heap, fault)?;
    Ok(Answer::Refused { number, values })
}

// What was told, as an answer, or the refusal.
pub(crate) fn shown<T, E: Refusal + Drop, F: FnOnce(T) -> Answer>(
    heap: Global,
    told: Result<T, E>,
    show: F,
) -> Result<Answer, AllocError>
    requires { F.IsAlwaysCallable show }
    ensures answered { IfOk result (λ a. MatchResult told (λ x. F.post show x a)
        (λ e. Refuses (E.Refusal.cause e) (E.Refusal.returned e) a)) }
    ensures failed { OnErr result (IsErr told) }
{
    match told {
        Ok(told) => Ok(show(told)),
        Err(fault) => refused(heap, &fault),
    }
}

// The values that a refusal tells, in order.
fn refusal_values<F: Refusal>(heap: Global, fault: &F) -> Result<Vec<usize>, AllocError>
    ensures { IfOk result (λ v. v.items ≡ take 3 (F.Refusal.returned fault.now)) }
{
    (0..MOST_VALUES)
        .filter_map(|index| fault.value(index))
        .collect(heap)
}

impl fmt::Display for Answer {
    fn fmt<W: fmt::Write>(&self, f: &mut fmt::Formatter<W>) -> fmt::Result {
        match self {
            Answer::Size(size) => write!(f, "size {size}"),
            Answer::Word(word) => write!(f, "word {word}"),
            Answer::Fault { page } => write!(f, "fault {page}"),
            Answer::Written => f.write_str("put"),
            Answer::Pages(pages) => show_list(f, "pages", pages.as_slice()),
            Answer::Words(words) => show_list(f, "words", words.as_slice()),
            Answer::Loaded => f.write_str("loaded"),
            Answer::Finished { word, pages } => write!(f, "answered {word} {pages}"),
            Answer::Stopped { step, page } => write!(f, "fault {step} {page}"),
            Answer::Refused { number, values } => {
                write!(f, "refused {number}")?;
                show_list(f, "", values.as_slice())
            }
            Answer::Accepted(accepted) => write!(f, "{accepted}"),
            Answer::Stands { step, standing } => write!(f, "step {step} {standing}"),
            Answer::Read(Some(read)) => write!(f, "step {} page {}", read.step, read.page),
            Answer::Read(None) => f.write_str("absent"),
            Answer::Shadows { count } => write!(f, "{count} shadows"),
        }
    }
}

// A heading and numbers, with a space before each.
fn show_list<T: fmt::Display, W: fmt::Write>(
    f: &mut fmt::Formatter<W>,
    heading: &str,
    numbers: &[T],
) -> fmt::Result {
    f.write_str(heading)?;
    for number in numbers {
        write!(f, " {number}")?;
    }
    Ok(())
}
