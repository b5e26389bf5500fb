// The theory of the engine: what a run alone is, what the rules are, and that they book serially. Types that the engine's
// calls share, and no state.
#![tactic(auto)]

ghost use Rattle.std.specs.Prelude.{ℕ, List};
ghost use Rattle.serial.specs.Book.{EveryListBooked};
ghost use Rattle.serial.specs.Guesses.{ShadowsGuess, TestsInWords, SpoiledByReads};
ghost use Rattle.serial.specs.Laws.{StepsRise, RunsDetermined, ReadsGrow, UnreadReached, StandFound};
ghost use Rattle.serial.specs.Machine.{start};
ghost use Rattle.serial.specs.OneStep.{StepsComeTo, StepsHaveOneOutcome, NextInWords, Begins, FourRegisters, ShadowsStandSo, StoreReadsInWords, WritesInWords};
ghost use Rattle.serial.specs.Outcome.{OneOutcome, OneRun, DeclinedExactly, AcceptedExactly, StandInWords, ReadEntryInWords};
ghost use Rattle.serial.specs.Refused.{FaultsTold};
ghost use Rattle.serial.specs.Rules.{set_allowance, begin, turn, commit, abort};
ghost use Rattle.serial.specs.Sound.{EnginesStaySound};
ghost use Rattle.serial.specs.Words.{FreshInWords, RelationsFixEngine, PicksFurthest, AccountsInWords, TurnsChangeOnly, DeclinedChangesNothing};
ghost use Rattle.serial.specs.WriteLaws.{WritesTold, StandsOnce, StaysWritten, LastWritten, InOrder, ReadsOwnWord, PutsInWords};

mod fault;

pub use fault::{Accepted, Answer, CallFault, Standing, StepFault, Turned};

// A recorded store read: an entry of a read set. A fork copies sixteen, so a step takes no more room than a page.
#[derive(Clone, Copy, PartialEq, Eq, Debug)]
pub struct ReadEntry {
    pub step: u32,
    pub page: u32,
}

// The laws of a run alone. The function does nothing: its contract is what is proved.
pub fn runs_are_lawful()
    ensures rise { StepsRise }
    ensures determined { RunsDetermined }
    ensures grow { ReadsGrow }
    ensures unread { UnreadReached }
    ensures found { StandFound }
{}

// The booking theorem over the rules, for hosts that make the calls one by one: since every call's contract is an equation
// with the rules, it holds of their calls too. The function does nothing: its contract is what is proved.
pub fn every_list_is_booked()
    ensures { EveryListBooked }
{}

// The rules in words, both ways: for each call and question what the words say, and nothing else, is what the rules do, and
// each relation among them leaves one engine. And what holds in every engine. The function does nothing: its contract is
// what is proved.
pub fn rules_in_words()
    ensures set_allowance { (k : ℕ) → OneOutcome (set_allowance k) }
    ensures begin { (t : ℕ) (bytes : List ℕ) → OneOutcome (begin t bytes) }
    ensures turn { (t u : ℕ) → OneOutcome (turn t u) }
    ensures commit { (t : ℕ) → OneOutcome (commit t) }
    ensures abort { (t : ℕ) → OneOutcome (abort t) }
    ensures stand { StandInWords }
    ensures read_entry { ReadEntryInWords }
    ensures declined { DeclinedExactly }
    ensures accepted { AcceptedExactly }
    ensures unchanged { DeclinedChangesNothing }
    ensures told { FaultsTold }
    ensures run { OneRun }
    ensures fresh { FreshInWords }
    ensures fixed { RelationsFixEngine }
    ensures furthest { PicksFurthest }
    ensures accounts { AccountsInWords }
    ensures change { TurnsChangeOnly }
    ensures sound { EnginesStaySound }
{}

// What one step comes to, in words: what it reads or writes, what is recorded, and what stays. The function does nothing:
// its contract is what is proved.
pub fn steps_in_words()
    ensures told { StepsComeTo }
    ensures one { StepsHaveOneOutcome }
    ensures next { NextInWords }
    ensures begin { Begins start }
    ensures four { FourRegisters }
    ensures engines { ShadowsStandSo }
    ensures reads { StoreReadsInWords }
    ensures writes { WritesInWords }
{}

// The laws of writes: what stands on a run's own list, and what its puts leave. The function does nothing: its contract is
// what is proved.
pub fn writes_are_lawful()
    ensures told { WritesTold }
    ensures once { StandsOnce }
    ensures stays { StaysWritten }
    ensures last { LastWritten }
    ensures order { InOrder }
    ensures reads { ReadsOwnWord }
    ensures puts { PutsInWords }
{}

// What shadows are for, at every moment of any list of calls. The function does nothing: its contract is what is proved.
pub fn shadows_guess()
    ensures { ShadowsGuess }
{}

// The engine's tests of reads against writes, in words, and that the one by recorded reads finds just what a commit spoils.
// The function does nothing: its contract is what is proved.
pub fn spoiled_by_reads()
    ensures tests { TestsInWords }
    ensures exact { SpoiledByReads }
{}
