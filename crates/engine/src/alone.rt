// A script run alone, from its first step to its end, and its own list put to the store.
ghost use Rattle.std.specs.Prelude.{◌≡◌, ◌<◌, ◌≤◌, length, slice_set};
ghost use Rattle.script.specs.Laws.{EndsAtEnd};
ghost use Rattle.script.specs.Script.{decoded};
ghost use Rattle.script.specs.View.{steps_of};
ghost use Rattle.pages.specs.Pages.{Chain};
ghost use Rattle.serial.specs.Alone.{put_all as after_puts};
ghost use Rattle.serial.specs.Machine.{takes};
ghost use Rattle.engine.specs.View.{stand_of, Room};
ghost use Rattle.engine.specs.Alone.{alone_cause, alone_returned, Inside, Advanced, Ended, RanAlone};
ghost use Rattle.engine.specs.declared.alone.AloneFault.TheVariants.{Script as NoScript};

use crate::machine::Machine;
use crate::shadow::Shadow;
use arithmetic::Arithmetic;
use basics::Refusal;
use pages::{Reader, Store, StoreFault, WriteEntry};
use script::{Register, Script, ScriptFault, Step, decode};

/// Why a script is not run to its end (docs/REFUSALS.md: 5, 6 and 9).
#[derive(Clone, Copy, PartialEq, Eq, Debug)]
pub enum AloneFault {
    /// the bytes are no script
    Script(ScriptFault),
    /// a step is for a page that the store does not have
    Step { step: usize, fault: StoreFault },
}

impl From<ScriptFault> for AloneFault {
    ghost from_gives = { λ f r. r ≡ NoScript f };

    fn from(fault: ScriptFault) -> AloneFault {
        AloneFault::Script(fault)
    }
}

// A step's fault has the number of a turn's, but no slot: it returns the step and the page.
impl Refusal for AloneFault {
    ghost cause = { alone_cause };

    ghost returned = { alone_returned };

    fn number(&self) -> u32 {
        match self {
            AloneFault::Script(fault) => fault.number(),
            AloneFault::Step { .. } => 9,
        }
    }

    fn value(&self, index: usize) -> Option<usize> {
        match self {
            AloneFault::Script(fault) => fault.value(index),
            AloneFault::Step { step, fault } => [*step, fault.page as usize].get(index).copied(),
        }
    }
}

// Takes one step; a fault is told with the step's number.
fn advance<R: Reader, A: Arithmetic>(
    shadow: &mut Shadow,
    step: &Step,
    machine: &Machine<R, A>,
) -> Result<(), AloneFault>
    requires { Room (stand_of shadow.old) }
    ensures { Advanced shadow.old (takes (A.Arithmetic.meaning machine.now.arithmetic.now) (R.Reader.pages machine.now.reader.now) step.now (stand_of shadow.old)) result shadow.new }
{
    let number = shadow.step();
    shadow
        .take_step(step, machine)
        .map_err(|fault| AloneFault::Step {
            step: number,
            fault,
        })
}

// Runs a script from step 0 to its end. No page changes.
fn run_to_end<R: Reader, A: Arithmetic>(
    script: &Script,
    machine: &Machine<R, A>,
) -> Result<Shadow, AloneFault>
    requires ends { EndsAtEnd (steps_of script.now) }
    requires few { length (steps_of script.now) ≤ 16 }
    ensures { Ended (A.Arithmetic.meaning machine.now.arithmetic.now) (steps_of script.now) (R.Reader.pages machine.now.reader.now) result }
{
    let mut shadow = Shadow::start();
    while let Some(step) = script.step(shadow.step()) {
        advance(&mut shadow, &step, machine)?;
    }
    Ok(shadow)
}

// Puts an entry to the store, which has its page.
fn put_entry<S: Store>(entry: &WriteEntry, store: &mut S)
    requires { entry.now.page < length (S.Reader.pages store.old) }
    ensures pages { S.Reader.pages store.new ≡ slice_set (S.Reader.pages store.old) entry.now.page entry.now.word }
    ensures wrote { S.Store.wrote store.old entry.now.page entry.now.word store.new }
{
    store.put(entry.page, entry.word).unwrap();
}

// Puts an own list to the store, in list order. Its pages are all below the store's size, so no put is refused.
pub(crate) fn put_all<S: Store>(own: &[WriteEntry], store: &mut S)
    requires { Inside (length (S.Reader.pages store.old)) own.now }
    ensures pages { S.Reader.pages store.new ≡ after_puts own.now (S.Reader.pages store.old) }
    ensures chain { Chain S.Store.wrote store.old own.now store.new }
{
    for entry in own {
        put_entry(entry, store);
    }
}

/// Runs a script alone over the store, and puts what it has written (docs/SCRIPTS.md). Answers register 0 and how many pages
/// were put. A fault leaves the store as it was.
pub fn run_alone<S: Store, A: Arithmetic>(
    bytes: &[u8],
    store: &mut S,
    arithmetic: &A,
) -> Result<(u32, usize), AloneFault>
    ensures { RanAlone S.Reader.pages S.Store.wrote (A.Arithmetic.meaning arithmetic.now) store.old (decoded bytes.now) result store.new }
{
    let script = decode(bytes)?;
    let shadow = run_to_end(
        &script,
        &Machine {
            reader: &*store,
            arithmetic,
        },
    )?;
    let own = shadow.own();
    put_all(own, store);
    Ok((shadow.register(Register::R0), own.len()))
}
