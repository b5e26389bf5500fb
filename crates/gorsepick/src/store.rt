// The store of a scenario: what is asked of it, over any store, and over words that are read as one kind or the other.
//
// A function over words makes the store itself: of a store that it were handed, its proof would not know whose words they
// are, and so not what is left in them.
ghost use Rattle.std.specs.Prelude.{◌≡◌, ℕ, ◌<◌, length, IfOk, OnErr, Result, slice_index};
ghost use Rattle.arithmetic.specs.Words.{delivered};
ghost use Rattle.pages.specs.Image.{image_fault};
ghost use Rattle.pages.specs.Load.{ImageLoaded};
ghost use Rattle.pages.specs.Pages.{word_at, Put, Chain};
ghost use Rattle.pages.specs.declared.StoreFault.{StoreFault};
ghost use Rattle.pages.specs.declared.fault.ImageLoadFault.{ImageLoadFault};
ghost use Rattle.script.specs.Script.{decoded};
ghost use Rattle.serial.specs.Rules.{does, list_put};
ghost use Rattle.engine.specs.Alone.{RanAlone};
ghost use Rattle.engine.specs.Booking.{call_of};
ghost use Rattle.engine.specs.Calls.{state_of};
ghost use Rattle.engine.specs.Table.{engine_of};
ghost use Rattle.engine.specs.declared.alone.AloneFault.{AloneFault};
ghost use Rattle.gorsepick.specs.Answers.{read_answer, put_answer, Shows, ShowsImage, LoadAnswer, AloneAnswer, Answered, AnsweredIn};
ghost use Rattle.gorsepick.specs.Kinds.{kind_pages, kind_wrote};
ghost use Rattle.gorsepick.specs.declared.memory.Kind.TheVariants as of;

use crate::answer::{Answer, refused, shown};
use crate::command::Request;
use crate::memory::Kind;
use arithmetic::Delivered;
use engine::{AloneFault, Call, Engine, run_alone};
use pages::{Flat, Image, Log, Reader, Store, load_image};
use std::alloc::{AllocError, Global};

// All pages of the store.
pub(crate) fn pages_in(heap: Global, kind: Kind, words: &mut [u32]) -> Result<Vec<u32>, AllocError>
    ensures pages { IfOk result (λ v. v.items ≡ kind_pages kind words.old) }
    ensures words { words.new ≡ words.old }
{
    match kind {
        Kind::Flat => all_pages(heap, &Flat::new(words)),
        Kind::Log => all_pages(heap, &Log::new(words)),
    }
}

// Asks the store.
pub(crate) fn answer_in(
    heap: Global,
    kind: Kind,
    words: &mut [u32],
    arithmetic: Delivered,
    request: Request,
) -> Result<Answer, AllocError>
    ensures answered { IfOk result (λ a.
        AnsweredIn kind (delivered arithmetic) request words.old a words.new) }
    ensures failed { OnErr result (words.new ≡ words.old) }
{
    match kind {
        Kind::Flat => answer_flat(heap, &mut Flat::new(words), arithmetic, request),
        Kind::Log => answer_log(heap, &mut Log::new(words), arithmetic, request),
    }
}

fn answer_flat(
    heap: Global,
    store: &mut Flat,
    arithmetic: Delivered,
    request: Request,
) -> Result<Answer, AllocError>
    ensures answered { IfOk result (λ a. AnsweredIn of.Flat (delivered arithmetic) request
        store.old.words.now a store.new.words.now) }
    ensures failed { OnErr result (store.new.words.now ≡ store.old.words.now) }
    ensures lender { store.new.words.ghost_name ≡ store.old.words.ghost_name }
{
    answer(heap, store, arithmetic, request)
}

fn answer_log(
    heap: Global,
    store: &mut Log,
    arithmetic: Delivered,
    request: Request,
) -> Result<Answer, AllocError>
    ensures answered { IfOk result (λ a. AnsweredIn of.Log (delivered arithmetic) request
        store.old.words.now a store.new.words.now) }
    ensures failed { OnErr result (store.new.words.now ≡ store.old.words.now) }
    ensures lender { store.new.words.ghost_name ≡ store.old.words.ghost_name }
{
    answer(heap, store, arithmetic, request)
}

// Makes a call with the store.
pub(crate) fn call_in(
    kind: Kind,
    words: &mut [u32],
    engine: &mut Engine,
    call: &Call,
    arithmetic: &Delivered,
) -> serial::Answer
    ensures rule { does (delivered arithmetic.now) (call_of call.now)
        (state_of engine.old (kind_pages kind words.old))
        ≡ (state_of engine.new (kind_pages kind words.new), result) }
    ensures puts { Chain (kind_wrote kind) words.old
        (list_put (engine_of engine.old.table) (call_of call.now) result) words.new }
{
    match kind {
        Kind::Flat => call_flat(&mut Flat::new(words), engine, call, arithmetic),
        Kind::Log => call_log(&mut Log::new(words), engine, call, arithmetic),
    }
}

fn call_flat(
    store: &mut Flat,
    engine: &mut Engine,
    call: &Call,
    arithmetic: &Delivered,
) -> serial::Answer
    ensures rule { does (delivered arithmetic.now) (call_of call.now)
        (state_of engine.old (kind_pages of.Flat store.old.words.now))
        ≡ (state_of engine.new (kind_pages of.Flat store.new.words.now), result) }
    ensures puts { Chain (kind_wrote of.Flat) store.old.words.now
        (list_put (engine_of engine.old.table) (call_of call.now) result) store.new.words.now }
    ensures lender { store.new.words.ghost_name ≡ store.old.words.ghost_name }
{
    engine.call(call, store, arithmetic)
}

fn call_log(
    store: &mut Log,
    engine: &mut Engine,
    call: &Call,
    arithmetic: &Delivered,
) -> serial::Answer
    ensures rule { does (delivered arithmetic.now) (call_of call.now)
        (state_of engine.old (kind_pages of.Log store.old.words.now))
        ≡ (state_of engine.new (kind_pages of.Log store.new.words.now), result) }
    ensures puts { Chain (kind_wrote of.Log) store.old.words.now
        (list_put (engine_of engine.old.table) (call_of call.now) result) store.new.words.now }
    ensures lender { store.new.words.ghost_name ≡ store.old.words.ghost_name }
{
    engine.call(call, store, arithmetic)
}

fn answer<S: Store>(
    heap: Global,
    store: &mut S,
    arithmetic: Delivered,
    request: Request,
) -> Result<Answer, AllocError>
    ensures answered { IfOk result (λ a.
        Answered S.Reader.pages S.Store.wrote (delivered arithmetic) request
        store.old a store.new) }
    ensures failed { OnErr result (store.new ≡ store.old) }
{
    match request {
        Request::Size => Ok(Answer::Size(store.size())),
        Request::Get { page } => Ok(get(store, page)),
        Request::Put { page, word } => Ok(put(store, page, word)),
        Request::Pages => show_pages(heap, store),
        Request::Load(bytes) => load(heap, store, bytes.as_slice()),
        Request::Alone(bytes) => alone(heap, store, arithmetic, bytes.as_slice()),
    }
}

fn get<R: Reader>(reader: &R, page: u32) -> Answer
    ensures { result ≡ read_answer (word_at (R.Reader.pages reader.now) page) }
{
    match reader.read(page) {
        Ok(word) => Answer::Word(word),
        Err(fault) => Answer::Fault { page: fault.page },
    }
}

fn put<S: Store>(store: &mut S, page: u32, word: u32) -> Answer
    ensures { (o : Result (Unit {0}) StoreFault)
        × Put S.Reader.pages S.Store.wrote store.old page word o store.new
        × (result ≡ put_answer o) }
{
    match store.put(page, word) {
        Ok(()) => Answer::Written,
        Err(fault) => Answer::Fault { page: fault.page },
    }
}

fn load<S: Store>(heap: Global, store: &mut S, bytes: &[u8]) -> Result<Answer, AllocError>
    ensures answered { IfOk result (λ a. (o : Result (Unit {0}) ImageLoadFault)
        × ImageLoaded S.Reader.pages S.Store.wrote bytes.now store.old o store.new
        × LoadAnswer o a) }
    ensures failed { OnErr result (store.new ≡ store.old) }
{
    shown(heap, load_image(bytes, store), |()| Answer::Loaded)
}

// Runs a script alone over the store.
fn alone<S: Store>(
    heap: Global,
    store: &mut S,
    arithmetic: Delivered,
    bytes: &[u8],
) -> Result<Answer, AllocError>
    ensures answered { IfOk result (λ a. (o : Result (ℕ × ℕ) AloneFault)
        × RanAlone S.Reader.pages S.Store.wrote (delivered arithmetic) store.old
        (decoded bytes.now) o store.new
        × AloneAnswer o a) }
    ensures failed { OnErr result (store.new ≡ store.old) }
{
    match run_alone(bytes, store, &arithmetic) {
        Ok((word, pages)) => Ok(Answer::Finished { word, pages }),
        Err(AloneFault::Script(fault)) => refused(heap, &fault),
        Err(AloneFault::Step { step, fault }) => Ok(Answer::Stopped {
            step,
            page: fault.page,
        }),
    }
}

pub(crate) fn show_image(heap: Global, bytes: &[u8]) -> Result<Answer, AllocError>
    ensures { IfOk result (ShowsImage bytes.now (image_fault bytes.now)) }
{
    match Image::parse(bytes) {
        Ok(image) => show_pages(heap, &image),
        Err(fault) => refused(heap, &fault),
    }
}

fn show_pages<R: Reader>(heap: Global, reader: &R) -> Result<Answer, AllocError>
    ensures { IfOk result (Shows (R.Reader.pages reader.now)) }
{
    Ok(Answer::Pages(all_pages(heap, reader)?))
}

// All pages of a reader, in order.
fn all_pages<R: Reader>(heap: Global, reader: &R) -> Result<Vec<u32>, AllocError>
    ensures { IfOk result (λ v. v.items ≡ R.Reader.pages reader.now) }
{
    (0..reader.size())
        .map(|page| page_word(reader, page))
        .collect(heap)
}

// The word of a page that is there.
fn page_word<R: Reader>(reader: &R, page: u32) -> u32
    requires { page < length (R.Reader.pages reader.now) }
    ensures { result ≡ slice_index (R.Reader.pages reader.now) page }
{
    reader.read(page).unwrap()
}
