// The host's side: the memory of the store, what the scenario keeps, and the commands carried out over them.
ghost use Rattle.std.specs.Prelude.{◌≡◌, ℕ, Some, None, length, IfOk, OnErr};
ghost use Rattle.std.specs.Global.{Vec};
ghost use Rattle.arithmetic.specs.Words.{counters, delivered};
ghost use Rattle.serial.specs.Rules.{fresh_engine, does, list_put};
ghost use Rattle.engine.specs.Calls.{state_of};
ghost use Rattle.engine.specs.Table.{engine_of};
ghost use Rattle.gorsepick.specs.Answers.{AnsweredBy, ShowsWords, PutsBy};
ghost use Rattle.gorsepick.specs.Commands.{SameButBook, ShowsTold, Looked, CallMade, CarriedOut};
ghost use Rattle.gorsepick.specs.Kinds.{store_pages, memory_pages, held};
ghost use Rattle.gorsepick.specs.Made.{call_made};
ghost use Rattle.gorsepick.specs.declared.answer.Answer.TheVariants as told;

use crate::answer::{Answer, shown};
use crate::book::Book;
use crate::command::{Command, Made, Question, Request};
use crate::memory::{Kind, Memory};
use crate::replay::replays_in;
use crate::shadows::SLOTS;
use crate::spoils::{Spoils, would_spoil};
use crate::store::{answer_in, call_in, pages_in, show_image};
use arithmetic::Delivered;
use engine::Engine;
use serial::Accepted;
use std::alloc::{AllocError, Global};

#[derive(Drop)]
pub(crate) struct Session {
    // of the store, once the scenario has given one
    pub(crate) memory: Option<Memory>,
    arithmetic: Delivered,
    pub(crate) engine: Engine,
    // the allowance of the engine, which does not tell it
    allowance: u32,
    pub(crate) book: Book,
    // whether the scenario has called the engine, or asked of it or of the book: a flag, since most questions leave no
    // other trace
    pub(crate) uses_engine: bool,
    pub(crate) committed: usize,
    pub(crate) spoils: Spoils,
}

impl Session {
    // At first there is no store, counters serve, and no slot is open.
    pub(crate) fn new(heap: Global) -> Session
        ensures store { held result.memory ≡ None }
        ensures arithmetic { delivered result.arithmetic ≡ counters }
        ensures engine { engine_of result.engine.table ≡ fresh_engine }
    {
        Session {
            memory: None,
            arithmetic: Delivered::Counting,
            engine: Engine::new(),
            allowance: 2,
            book: Book::new(heap),
            uses_engine: false,
            committed: 0,
            spoils: Spoils::default(),
        }
    }

    // Carries a command out. Some have nothing to answer.
    pub(crate) fn carry_out(
        &mut self,
        heap: Global,
        command: Command,
    ) -> Result<Option<Answer>, AllocError>
        ensures { IfOk result (λ a. CarriedOut self.old command a self.new) }
    {
        let answer = match command {
            Command::Store(memory) => self.take_store(heap, memory)?,
            Command::Arithmetic(arithmetic) => {
                self.note_change();
                self.arithmetic = arithmetic;
                return Ok(None);
            }
            Command::Script => return Ok(None),
            Command::Image(bytes) => show_image(heap, bytes.as_slice())?,
            Command::Words => self.words(heap)?,
            Command::Ask(request) => self.ask_as_host(heap, request)?,
            Command::Make(made) => self.make(heap, made)?,
            Command::Look(question) => self.look(heap, question)?,
        };
        Ok(Some(answer))
    }

    // The host changes store, arithmetic or pages; before the first store there is nothing to change.
    fn note_change(&mut self)
        ensures { SameButBook self.old self.new }
    {
        if self.memory.is_some() {
            self.book.spoil();
        }
    }

    // The words of the memory behind the store.
    fn words(&self, heap: Global) -> Result<Answer, AllocError>
        ensures { IfOk result (ShowsWords (held self.now.memory)) }
    {
        match &self.memory {
            None => Ok(Answer::Words(Vec::new(heap))),
            Some(memory) => Ok(Answer::Words(memory.words.clone()?)),
        }
    }

    // Asks the store, as the host does: the book is to know of a change.
    fn ask_as_host(&mut self, heap: Global, request: Request) -> Result<Answer, AllocError>
        ensures answered { IfOk result (λ a.
            AnsweredBy (delivered self.old.arithmetic) request (held self.old.memory) a
            (held self.new.memory)) }
        ensures failed { OnErr result (held self.new.memory ≡ held self.old.memory) }
        ensures engine { self.new.engine ≡ self.old.engine }
        ensures arithmetic { self.new.arithmetic ≡ self.old.arithmetic }
    {
        let answer = self.ask(heap, request)?;
        if answer.is_change() {
            self.note_change();
        }
        Ok(answer)
    }

    // What is asked of the engine, between calls, or of the serial book.
    fn look(&mut self, heap: Global, question: Question) -> Result<Answer, AllocError>
        ensures looked { IfOk result (Looked question self.old.engine) }
        ensures same { SameButBook self.old self.new }
    {
        self.uses_engine = true;
        match question {
            Question::Stand { slot, other } => {
                shown(heap, self.engine.stand(slot, other), |(step, standing)| {
                    Answer::Stands { step, standing }
                })
            }
            Question::Entry { slot, other, index } => {
                let read = self.engine.read_entry(slot, other, index as usize);
                shown(heap, read, |read| Answer::Read(read))
            }
            Question::Shadows => Ok(Answer::Shadows {
                count: count_shadows(&self.engine),
            }),
            Question::Book => self.book_pages(heap),
        }
    }

    fn book_pages(&mut self, heap: Global) -> Result<Answer, AllocError>
        ensures pages { IfOk result (λ a. (v : Vec ℕ) × (a ≡ told.Pages v)) }
        ensures same { SameButBook self.old self.new }
    {
        self.begin_book(heap)?;
        Ok(Answer::Pages(match self.book.begun() {
            None => Vec::new(heap),
            Some(begun) => begun.pages.clone()?,
        }))
    }

    // Begins the book, where it waits for that and a store is given.
    pub(crate) fn begin_book(&mut self, heap: Global) -> Result<(), AllocError>
        ensures { SameButBook self.old self.new }
    {
        match &mut self.memory {
            Some(memory) if self.book.begun().is_none() => {
                let pages = pages_in(heap, memory.kind, memory.words.as_mut_slice())?;
                let first = memory.clone()?;
                let any_open = is_any_open(&self.engine);
                self.book.begin(pages, first, any_open, self.allowance)
            }
            _ => Ok(()),
        }
    }

    // Makes one of the five calls, and enters it in the book.
    fn make(&mut self, heap: Global, made: Made) -> Result<Answer, AllocError>
        ensures { IfOk result (λ a. CallMade self.old (call_made made) a self.new) }
    {
        self.uses_engine = true;
        self.begin_book(heap)?;
        let spoiled = match &made {
            Made::Commit { slot } => would_spoil(heap, &self.engine, *slot)?,
            _ => Vec::new(heap),
        };
        let answer = self.call(&made);
        self.enter(heap, &made, answer)?;
        self.count_commit(answer, spoiled.as_slice());
        self.book.keep(made, answer)?;
        show_call(heap, answer)
    }

    // Counts a commit, and how the slots that it spoiled go on.
    fn count_commit(&mut self, answer: serial::Answer, spoiled: &[u32])
        ensures { SameButBook self.old self.new }
    {
        if let Ok(Accepted::Committed(_, _)) = answer {
            self.committed = self.committed.saturating_add(1);
            self.spoils.count(&self.engine, spoiled);
        }
    }

    // Makes a call with the store. Until a scenario gives one, a flat store with no words stands in for it.
    fn call(&mut self, made: &Made) -> serial::Answer
        ensures rule { does (delivered self.old.arithmetic) (call_made made.now)
            (state_of self.old.engine (store_pages self.old.memory))
            ≡ (state_of self.new.engine (store_pages self.new.memory), result) }
        ensures puts { PutsBy (held self.old.memory)
            (list_put (engine_of self.old.engine.table) (call_made made.now) result)
            (held self.new.memory) }
        ensures arithmetic { self.new.arithmetic ≡ self.old.arithmetic }
    {
        let call = made.as_call();
        let (engine, arithmetic) = (&mut self.engine, &self.arithmetic);
        match &mut self.memory {
            None => call_in(Kind::Flat, &mut [], engine, &call, arithmetic),
            Some(memory) => {
                let words = memory.words.as_mut_slice();
                call_in(memory.kind, words, engine, &call, arithmetic)
            }
        }
    }

    // Enters a call in the book, where it is accepted.
    fn enter(&mut self, heap: Global, made: &Made, answer: serial::Answer) -> Result<(), AllocError>
        ensures { SameButBook self.old self.new }
    {
        match (made, answer) {
            (Made::Allow { allowance }, Ok(Accepted::Allowed)) => {
                self.allowance = *allowance;
                Ok(())
            }
            (Made::Begin { slot, bytes }, Ok(Accepted::Begun)) => {
                self.book.enter(*slot, bytes.clone()?)
            }
            (Made::Commit { slot }, Ok(Accepted::Committed(word, count))) => {
                self.enter_commit(heap, *slot, (word, count))
            }
            (Made::Abort { slot }, Ok(Accepted::Aborted)) => {
                let _ = self.book.strike_out(*slot);
                Ok(())
            }
            _ => Ok(()),
        }
    }

    // A transaction that began before the book is not run again: the book takes over the pages that it left.
    fn enter_commit(
        &mut self,
        heap: Global,
        slot: u32,
        told: (u32, usize),
    ) -> Result<(), AllocError>
        ensures { SameButBook self.old self.new }
    {
        match self.book.strike_out(slot) {
            Some(bytes) => self.book.run(bytes.as_slice(), self.arithmetic, told),
            None => {
                let pages = self.pages(heap)?;
                self.book.take_over(pages);
            }
        }
        Ok(())
    }

    // Carries out the calls since the book began once more, on a fresh engine over the memory that the store then had.
    // Whether answers and memory come out the same.
    pub(crate) fn replays(&self, heap: Global, first: &Memory) -> Result<bool, AllocError> {
        let mut memory = first.clone()?;
        let calls = self.book.calls.as_slice();
        let words = memory.words.as_mut_slice();
        let same = replays_in(heap, calls, memory.kind, words, self.arithmetic)?;
        Ok(same && self.memory == Some(memory))
    }

    // From here on there is this store.
    fn take_store(&mut self, heap: Global, memory: Memory) -> Result<Answer, AllocError>
        ensures store { held self.new.memory ≡ held (Some memory) }
        ensures size { IfOk result (λ a. a ≡ told.Size (length (memory_pages memory))) }
        ensures engine { self.new.engine ≡ self.old.engine }
        ensures arithmetic { self.new.arithmetic ≡ self.old.arithmetic }
    {
        self.note_change();
        self.memory = Some(memory);
        self.ask(heap, Request::Size)
    }

    // All pages of the store.
    pub(crate) fn pages(&mut self, heap: Global) -> Result<Vec<u32>, AllocError>
        ensures pages { IfOk result (λ v. v.items ≡ store_pages self.old.memory) }
        ensures same { SameButBook self.old self.new }
    {
        match &mut self.memory {
            None => Ok(Vec::new(heap)),
            Some(memory) => pages_in(heap, memory.kind, memory.words.as_mut_slice()),
        }
    }

    // Asks the store, whichever kind it is. Until a scenario gives one, a flat store with no words stands in for it.
    fn ask(&mut self, heap: Global, request: Request) -> Result<Answer, AllocError>
        ensures answered { IfOk result (λ a.
            AnsweredBy (delivered self.old.arithmetic) request (held self.old.memory) a
            (held self.new.memory)) }
        ensures failed { OnErr result (held self.new.memory ≡ held self.old.memory) }
        ensures engine { self.new.engine ≡ self.old.engine }
        ensures arithmetic { self.new.arithmetic ≡ self.old.arithmetic }
    {
        let arithmetic = self.arithmetic;
        match &mut self.memory {
            None => answer_in(heap, Kind::Flat, &mut [], arithmetic, request),
            Some(memory) => {
                let words = memory.words.as_mut_slice();
                answer_in(heap, memory.kind, words, arithmetic, request)
            }
        }
    }
}

fn show_call(heap: Global, answer: serial::Answer) -> Result<Answer, AllocError>
    ensures { IfOk result (ShowsTold answer told.Accepted) }
{
    shown(heap, answer, |accepted| Answer::Accepted(accepted))
}

fn is_any_open(engine: &Engine) -> bool {
    (0..SLOTS).any(|slot| engine.shadow(slot, slot).is_some())
}

fn count_shadows(engine: &Engine) -> usize {
    // A fold, since `sum` would have to be shown to fit.
    (0..SLOTS).fold(0usize, |count, slot| {
        count.saturating_add(count_row(engine, slot))
    })
}

fn count_row(engine: &Engine, slot: u32) -> usize {
    (0..SLOTS)
        .filter(|other| engine.shadow(slot, *other).is_some())
        .count()
}
