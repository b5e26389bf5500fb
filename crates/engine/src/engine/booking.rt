// Lists of calls, and the promise that they book serially.
ghost use Rattle.std.specs.Prelude.{◌≡◌, OnErr};
ghost use Rattle.serial.specs.Rules.{does, list_put};
ghost use Rattle.serial.specs.History.{Continued};
ghost use Rattle.pages.specs.Pages.{Chain};
ghost use Rattle.engine.specs.Table.{engine_of};
ghost use Rattle.engine.specs.Calls.{state_of, OnStill};
ghost use Rattle.engine.specs.Booking.{call_of, Carried};

use super::Engine;
use arithmetic::Arithmetic;
use pages::Store;
use serial::{Accepted, Answer};

/// One of the five calls, with its arguments (docs/ENGINE.md).
#[derive(Clone, Copy, PartialEq, Eq, Debug)]
pub enum Call<'a> {
    SetAllowance { allowance: u32 },
    Begin { slot: u32, script: &'a [u8] },
    Turn { slot: u32, other: u32 },
    Commit { slot: u32 },
    Abort { slot: u32 },
}

impl Engine {
    /// Carries out one call, as the function of its name does.
    #[tactic(auto, using(serial::proofs::Continued::continued))]
    pub fn call<S: Store, A: Arithmetic>(
        &mut self,
        call: &Call,
        store: &mut S,
        arithmetic: &A,
    ) -> Answer
        ensures rule { does (A.Arithmetic.meaning arithmetic.now) (call_of call.now) (state_of self.old (S.Reader.pages store.old)) ≡ (state_of self.new (S.Reader.pages store.new), result) }
        ensures history { Continued (A.Arithmetic.meaning arithmetic.now)
            (state_of self.old (S.Reader.pages store.old)) (call_of call.now) result
            (state_of self.new (S.Reader.pages store.new)) }
        ensures puts { Chain S.Store.wrote store.old (list_put (engine_of self.old.table) (call_of call.now) result) store.new }
        ensures declined { OnErr result (self.new.table ≡ self.old.table) }
        ensures store { OnErr result (store.new ≡ store.old) }
        ensures no_step { OnStill result (self.new.table ≡ self.old.table) }
    {
        match call {
            Call::SetAllowance { allowance } => {
                self.set_allowance(*allowance).map(|()| Accepted::Allowed)
            }
            Call::Begin { slot, script } => self.begin(*slot, script).map(|()| Accepted::Begun),
            Call::Turn { slot, other } => self
                .turn(*slot, *other, store, arithmetic)
                .map(Accepted::Took),
            Call::Commit { slot } => self
                .commit(*slot, store)
                .map(|(word, pages)| Accepted::Committed(word, pages)),
            Call::Abort { slot } => self.abort(*slot).map(|()| Accepted::Aborted),
        }
    }
}

/// Carries out a list of calls on a fresh engine, declined ones among them, and answers each: as many as there is room for
/// answers. Gives back the engine and how many were carried out. Whatever the calls, they book serially (docs/SERIAL.md).
pub fn carry_out<S: Store, A: Arithmetic>(
    calls: &[Call],
    answers: &mut [Answer],
    store: &mut S,
    arithmetic: &A,
) -> (Engine, usize)
    ensures { Carried S.Reader.pages S.Store.wrote (A.Arithmetic.meaning arithmetic.now) calls.now answers.old store.old result.0 result.1 answers.new store.new }
{
    let mut engine = Engine::new();
    let count = calls.len().min(answers.len());
    // A zip with the answers would tell a proof nothing of what they hold after it.
    for (i, call) in calls[..count].iter().enumerate() {
        answers[i] = engine.call(call, store, arithmetic);
    }
    (engine, count)
}
