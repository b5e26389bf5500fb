// What the program says at the end, in plain words.
ghost use Rattle.gorsepick.specs.Commands.{SameButBook};

use crate::answer::Answer;
use crate::book::Begun;
use crate::failure::Failure;
use crate::memory::{Kind, Memory};
use crate::session::Session;
use crate::spoils::Spoils;
use std::io;

// More pages than these are counted and not shown.
const MOST_SHOWN: usize = 16;

#[derive(Clone, Copy, Default)]
pub(crate) struct Tally {
    carried_out: usize,
    declined: usize,
}

impl Tally {
    // Counts a command, by its answer where it has one.
    pub(crate) fn count(&mut self, answer: Option<&Answer>) {
        self.carried_out = self.carried_out.saturating_add(1);
        if answer.is_some_and(Answer::is_declined) {
            self.declined = self.declined.saturating_add(1);
        }
    }
}

pub(crate) fn print_summary(
    rt: &(impl Print + AllocGlobal),
    session: &mut Session,
    tally: Tally,
) -> Result<(), Failure>
    ensures { SameButBook session.old session.new }
{
    let pages = session.pages(rt.alloc())?;
    match session.memory.as_ref().map(|memory| memory.kind) {
        None => println!(rt; "No store was given.")?,
        Some(Kind::Flat) => print_pages(rt, "The store is flat", pages.as_slice())?,
        Some(Kind::Log) => print_pages(rt, "The store is a log", pages.as_slice())?,
    }
    let Tally {
        carried_out,
        declined,
    } = tally;
    println!(rt;
        "Commands carried out: {carried_out}; refused or answered with a fault: {declined}."
    )?;
    if session.uses_engine {
        print_engine(rt, session, pages.as_slice())?;
    }
    Ok(())
}

// What the transactions came to, beside the serial book.
fn print_engine(
    rt: &(impl Print + AllocGlobal),
    session: &mut Session,
    pages: &[u32],
) -> Result<(), Failure>
    ensures { SameButBook session.old session.new }
{
    session.begin_book(rt.alloc())?;
    let committed = session.committed;
    println!(rt; "Transactions committed: {committed}.")?;
    print_spoils(rt, session.spoils)?;
    if let Some(begun) = session.book.begun() {
        print_book(rt, session, begun, pages)?;
    }
    if session.book.unclaimed {
        println!(rt;
            "The host changed store, arithmetic or pages while transactions were open: serial booking is not claimed for those."
        )?;
    }
    Ok(())
}

fn print_spoils(rt: &impl Print, spoils: Spoils) -> io::Result<()> {
    let Spoils {
        took_over,
        started_over,
    } = spoils;
    println!(rt;
        "After a conflict a shadow took over: {took_over}; a transaction started over: {started_over}."
    )
}

fn print_book(
    rt: &(impl Print + AllocGlobal),
    session: &Session,
    begun: &Begun,
    pages: &[u32],
) -> Result<(), Failure> {
    print_pages(rt, "The serial book", begun.pages.as_slice())?;
    if session.book.agrees && begun.pages.as_slice() == pages {
        println!(rt; "Pages and answers are equal to the serial book's.")?;
    } else {
        println!(rt; "Pages or answers differ from the serial book's.")?;
    }
    if let Some(first) = &begun.first {
        print_replay(rt, session, first)?;
    }
    Ok(())
}

fn print_replay(
    rt: &(impl Print + AllocGlobal),
    session: &Session,
    first: &Memory,
) -> Result<(), Failure> {
    if session.replays(rt.alloc(), first)? {
        println!(rt;
            "The calls since the book began, made again on a fresh engine, left the same pages and answers."
        )?;
    } else {
        println!(rt;
            "The calls since the book began, made again on a fresh engine, left other pages or answers."
        )?;
    }
    Ok(())
}

fn print_pages(rt: &impl Print, heading: &str, pages: &[u32]) -> io::Result<()> {
    let size = pages.len();
    print!(rt; "{heading}, of size {size}")?;
    if !pages.is_empty() {
        print!(rt; ", with pages")?;
    }
    for word in pages.iter().take(MOST_SHOWN) {
        print!(rt; " {word}")?;
    }
    if size > MOST_SHOWN {
        let more = size - MOST_SHOWN;
        print!(rt; " and {more} more")?;
    }
    println!(rt; ".")
}
