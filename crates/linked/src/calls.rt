// The five calls.
ghost use Rattle.std.specs.Prelude.{◌≡◌, ℕ, true, false, List};
ghost use Rattle.serial.specs.Rules.{lead_writes, allows, begins, turns, commits, aborts, set_allowance, begin, turn, commit, abort};
ghost use Rattle.serial.specs.History.{Continued};
ghost use Rattle.engine.specs.Table.{engine_of};
ghost use Rattle.engine.specs.Calls.{state_of, answers_by, committing};
ghost use Rattle.engine.specs.History.{ContinuedByAny, ContinuedOverAny};
ghost use Rattle.arithmetic.specs.Words.{delivered};
ghost use Rattle.pages.specs.Pages.{Chain};
ghost use Rattle.pages.specs.Flat.{flat_pages};
ghost use Rattle.pages.specs.Log.{log_pages};
ghost use Rattle.serial.specs.declared.fault.Accepted.TheVariants.{Took};
ghost use Rattle.linked.specs.Host.{pages_in, words_put, list_unless_refused, arithmetic_named};
ghost use Rattle.linked.specs.Told.{answer_told, AsItWas, OnNoStep, done_told, unit_told_by};
ghost use Rattle.linked.specs.History.{ToldOf};

use crate::handle::Handle;
use crate::told::{Told, declined, number_of_turned, told_none, told_one, told_two};
use arithmetic::{Arithmetic, Delivered};
use pages::{Flat, Log, Reader, Store};
use serial::{CallFault, Turned};

// An accepted call that tells nothing more.
fn told_unit(res: Result<(), CallFault>) -> Told
    ensures { result ≡ unit_told_by res }
{
    match res {
        Ok(()) => told_none(),
        Err(fault) => declined(fault),
    }
}

/// `Engine::set_allowance`. No value where it is accepted.
#[unsafe(no_mangle)]
pub extern "C" fn gorsepick_set_allowance(engine: &mut Handle, allowance: u32) -> Told
    ensures rule { (pages : List ℕ) → done_told (allows (state_of engine.old.engine pages) allowance) ≡ (state_of engine.new.engine pages, result) }
    ensures history { ToldOf (λ a. ContinuedOverAny engine.old.engine (set_allowance allowance)
        a engine.new.engine) result }
    ensures declined { AsItWas result.refusal (engine.new.engine.table ≡ engine.old.engine.table) }
    ensures place { engine.new.at ≡ engine.old.at }
{
    told_unit(engine.engine().set_allowance(allowance))
}

/// `Engine::begin`. No value where it is accepted.
#[unsafe(no_mangle)]
pub extern "C" fn gorsepick_begin(engine: &mut Handle, slot: u32, script: &[u8]) -> Told
    ensures rule { (pages : List ℕ) → done_told (begins (state_of engine.old.engine pages) slot script.now) ≡ (state_of engine.new.engine pages, result) }
    ensures history { ToldOf (λ a. ContinuedOverAny engine.old.engine (begin slot script.now)
        a engine.new.engine) result }
    ensures declined { AsItWas result.refusal (engine.new.engine.table ≡ engine.old.engine.table) }
    ensures place { engine.new.at ≡ engine.old.at }
{
    told_unit(engine.engine().begin(slot, script))
}

// The arithmetic that a host names.
fn arithmetic_named(flags: bool) -> Delivered
    ensures { delivered result ≡ arithmetic_named flags }
{
    if flags {
        Delivered::Flagging
    } else {
        Delivered::Counting
    }
}

fn told_turn(res: Result<Turned, CallFault>) -> Told
    ensures { result ≡ answer_told (answers_by Took res) }
{
    match res {
        Ok(turned) => told_one(number_of_turned(turned)),
        Err(fault) => declined(fault),
    }
}

// A turn with the pages of either store.
fn turn_with<R: Reader>(engine: &mut Handle, slot: u32, other: u32, reader: &R, flags: bool) -> Told
    ensures rule { done_told (turns (arithmetic_named flags) (state_of engine.old.engine (R.Reader.pages reader.now)) slot other) ≡ (state_of engine.new.engine (R.Reader.pages reader.now), result) }
    ensures no_step { OnNoStep result (engine.new.engine.table ≡ engine.old.engine.table) }
    ensures declined { AsItWas result.refusal (engine.new.engine.table ≡ engine.old.engine.table) }
    ensures place { engine.new.at ≡ engine.old.at }
{
    let arithmetic = arithmetic_named(flags);
    told_turn(engine.engine().turn(slot, other, reader, &arithmetic))
}

// A turn with a log in the host's words. Each store has a call of its own: in one for both, each turn would clear the room
// of both.
fn turn_log(engine: &mut Handle, slot: u32, other: u32, words: &mut [u32], flags: bool) -> Told
    ensures rule { done_told (turns (arithmetic_named flags) (state_of engine.old.engine (pages_in true words.old)) slot other) ≡ (state_of engine.new.engine (pages_in true words.old), result) }
    ensures words { words.new ≡ words.old }
    ensures no_step { OnNoStep result (engine.new.engine.table ≡ engine.old.engine.table) }
    ensures declined { AsItWas result.refusal (engine.new.engine.table ≡ engine.old.engine.table) }
    ensures place { engine.new.at ≡ engine.old.at }
{
    turn_with(engine, slot, other, &Log::new(words), flags)
}

// And with a flat store there.
fn turn_flat(engine: &mut Handle, slot: u32, other: u32, words: &mut [u32], flags: bool) -> Told
    ensures rule { done_told (turns (arithmetic_named flags) (state_of engine.old.engine (pages_in false words.old)) slot other) ≡ (state_of engine.new.engine (pages_in false words.old), result) }
    ensures words { words.new ≡ words.old }
    ensures no_step { OnNoStep result (engine.new.engine.table ≡ engine.old.engine.table) }
    ensures declined { AsItWas result.refusal (engine.new.engine.table ≡ engine.old.engine.table) }
    ensures place { engine.new.at ≡ engine.old.at }
{
    turn_with(engine, slot, other, &Flat::new(words), flags)
}

/// `Engine::turn` over the host's words, flat or as a log, with the arithmetic of flags or of counters (docs/ARITHMETIC.md).
/// One value where it is accepted: 0 moved, 1 ended, 2 waiting.
#[unsafe(no_mangle)]
pub extern "C" fn gorsepick_turn(
    engine: &mut Handle,
    slot: u32,
    other: u32,
    words: &mut [u32],
    log: bool,
    flags: bool,
) -> Told
    ensures rule { done_told (turns (arithmetic_named flags) (state_of engine.old.engine (pages_in log words.old)) slot other) ≡ (state_of engine.new.engine (pages_in log words.old), result) }
    ensures history { ToldOf (λ a. Continued (arithmetic_named flags)
        (state_of engine.old.engine (pages_in log words.old)) (turn slot other) a
        (state_of engine.new.engine (pages_in log words.new))) result }
    ensures words { words.new ≡ words.old }
    ensures no_step { OnNoStep result (engine.new.engine.table ≡ engine.old.engine.table) }
    ensures declined { AsItWas result.refusal (engine.new.engine.table ≡ engine.old.engine.table) }
    ensures place { engine.new.at ≡ engine.old.at }
{
    if log {
        turn_log(engine, slot, other, words, flags)
    } else {
        turn_flat(engine, slot, other, words, flags)
    }
}

fn told_commit(res: Result<(u32, usize), CallFault>) -> Told
    ensures { result ≡ answer_told (answers_by committing res) }
{
    match res {
        Ok((word, pages)) => told_two(word as usize, pages),
        Err(fault) => declined(fault),
    }
}

// A commit to either store.
fn commit_to<S: Store>(engine: &mut Handle, slot: u32, store: &mut S) -> Told
    ensures rule { done_told (commits (state_of engine.old.engine (S.Reader.pages store.old)) slot) ≡ (state_of engine.new.engine (S.Reader.pages store.new), result) }
    ensures puts { Chain S.Store.wrote store.old (list_unless_refused (lead_writes (engine_of engine.old.engine.table) slot) result.refusal) store.new }
    ensures declined { AsItWas result.refusal (engine.new.engine.table ≡ engine.old.engine.table) }
    ensures place { engine.new.at ≡ engine.old.at }
{
    told_commit(engine.engine().commit(slot, store))
}

// A commit to a log in the host's words. The words are lent on as before, so that the host finds in them what was put.
fn commit_log(engine: &mut Handle, slot: u32, store: &mut Log) -> Told
    ensures rule { done_told (commits (state_of engine.old.engine (log_pages store.old.words.now)) slot) ≡ (state_of engine.new.engine (log_pages store.new.words.now), result) }
    ensures words { store.new.words.now ≡ words_put true (list_unless_refused (lead_writes (engine_of engine.old.engine.table) slot) result.refusal) store.old.words.now }
    ensures lender { store.new.words.ghost_name ≡ store.old.words.ghost_name }
    ensures declined { AsItWas result.refusal (engine.new.engine.table ≡ engine.old.engine.table) }
    ensures place { engine.new.at ≡ engine.old.at }
{
    commit_to(engine, slot, store)
}

// And to a flat store there.
fn commit_flat(engine: &mut Handle, slot: u32, store: &mut Flat) -> Told
    ensures rule { done_told (commits (state_of engine.old.engine (flat_pages store.old.words.now)) slot) ≡ (state_of engine.new.engine (flat_pages store.new.words.now), result) }
    ensures words { store.new.words.now ≡ words_put false (list_unless_refused (lead_writes (engine_of engine.old.engine.table) slot) result.refusal) store.old.words.now }
    ensures lender { store.new.words.ghost_name ≡ store.old.words.ghost_name }
    ensures declined { AsItWas result.refusal (engine.new.engine.table ≡ engine.old.engine.table) }
    ensures place { engine.new.at ≡ engine.old.at }
{
    commit_to(engine, slot, store)
}

/// `Engine::commit` to the host's words, flat or as a log. Two values where it is accepted: register 0, and how many pages
/// were put.
#[unsafe(no_mangle)]
pub extern "C" fn gorsepick_commit(
    engine: &mut Handle,
    slot: u32,
    words: &mut [u32],
    log: bool,
) -> Told
    ensures rule { done_told (commits (state_of engine.old.engine (pages_in log words.old)) slot) ≡ (state_of engine.new.engine (pages_in log words.new), result) }
    ensures history { ToldOf (λ a. ContinuedByAny
        (state_of engine.old.engine (pages_in log words.old)) (commit slot) a
        (state_of engine.new.engine (pages_in log words.new))) result }
    ensures words { words.new ≡ words_put log (list_unless_refused (lead_writes (engine_of engine.old.engine.table) slot) result.refusal) words.old }
    ensures declined { AsItWas result.refusal (engine.new.engine.table ≡ engine.old.engine.table) }
    ensures place { engine.new.at ≡ engine.old.at }
{
    if log {
        commit_log(engine, slot, &mut Log::new(words))
    } else {
        commit_flat(engine, slot, &mut Flat::new(words))
    }
}

/// `Engine::abort`. No value where it is accepted.
#[unsafe(no_mangle)]
pub extern "C" fn gorsepick_abort(engine: &mut Handle, slot: u32) -> Told
    ensures rule { (pages : List ℕ) → done_told (aborts (state_of engine.old.engine pages) slot) ≡ (state_of engine.new.engine pages, result) }
    ensures history { ToldOf (λ a. ContinuedOverAny engine.old.engine (abort slot)
        a engine.new.engine) result }
    ensures declined { AsItWas result.refusal (engine.new.engine.table ≡ engine.old.engine.table) }
    ensures place { engine.new.at ≡ engine.old.at }
{
    told_unit(engine.engine().abort(slot))
}
