// The serial book: what the transactions committed so far come to, each run alone, one after the other.
use crate::command::Made;
use crate::memory::Memory;
use arithmetic::Delivered;
use engine::run_alone;
use pages::Flat;
use serial::{Accepted, Answer};
use std::alloc::{AllocError, Global};
use std::collections::BTreeMap;

#[derive(Drop)]
enum Stage {
    // no store was given yet
    Awaited,
    // the host has changed something, so that the book is to start anew
    Stale,
    Begun(Begun),
}

#[derive(Drop)]
pub(crate) struct Begun {
    // the store's memory when the book began, for its calls to be made again over it; none where it began with a slot
    // open whose script it does not have
    pub(crate) first: Option<Memory>,
    // what the store's pages then, and the transactions committed since, come to
    pub(crate) pages: Vec<u32>,
}

#[derive(Drop)]
pub(crate) struct Book {
    stage: Stage,
    // whether the book ever started anew while a slot was open: a flag, since no more is told of it, and beside the
    // stages, since it outlasts them
    pub(crate) unclaimed: bool,
    // whether every commit has answered as the run alone did: a flag for the same two reasons
    pub(crate) agrees: bool,
    // by slot: the scripts begun and not yet closed
    scripts: BTreeMap<u32, Vec<u8>>,
    // the calls since the book began, each with what it answered
    pub(crate) calls: Vec<(Made, Answer)>,
}

impl Book {
    pub(crate) fn new(heap: Global) -> Book {
        Book {
            stage: Stage::Awaited,
            unclaimed: false,
            agrees: true,
            scripts: BTreeMap::new(heap),
            calls: Vec::new(heap),
        }
    }

    // What the book began with, once it has.
    pub(crate) fn begun(&self) -> Option<&Begun> {
        match &self.stage {
            Stage::Begun(begun) => Some(begun),
            Stage::Awaited | Stage::Stale => None,
        }
    }

    // The host has changed store, arithmetic or pages.
    pub(crate) fn spoil(&mut self) {
        self.stage = Stage::Stale;
    }

    // Begins the book with these pages. Calls made before the first store was given count as made with it; where the book
    // starts anew only the allowance goes on.
    pub(crate) fn begin(
        &mut self,
        pages: Vec<u32>,
        first: Memory,
        any_open: bool,
        allowance: u32,
    ) -> Result<(), AllocError> {
        let anew = matches!(self.stage, Stage::Stale);
        if anew {
            self.scripts.clear();
            self.calls.clear();
            self.unclaimed |= any_open;
            self.keep(Made::Allow { allowance }, Ok(Accepted::Allowed))?;
        }
        let is_whole = !(anew && any_open);
        let first = is_whole.then_some(first);
        self.stage = Stage::Begun(Begun { first, pages });
        Ok(())
    }

    // Keeps a call and its answer.
    pub(crate) fn keep(&mut self, made: Made, answer: Answer) -> Result<(), AllocError> {
        Ok(self.calls.push((made, answer))?)
    }

    pub(crate) fn enter(&mut self, slot: u32, bytes: Vec<u8>) -> Result<(), AllocError> {
        self.scripts.insert(slot, bytes)?;
        Ok(())
    }

    // The slot's script is not to be run any more. There is none where its transaction began before the book.
    pub(crate) fn strike_out(&mut self, slot: u32) -> Option<Vec<u8>> {
        self.scripts.remove(&slot)
    }

    // Runs a committed script alone over the book's pages, and compares what it comes to with the commit's answer.
    pub(crate) fn run(&mut self, bytes: &[u8], arithmetic: Delivered, told: (u32, usize)) {
        if let Stage::Begun(begun) = &mut self.stage {
            let pages = &mut Flat::new(begun.pages.as_mut_slice());
            self.agrees &= run_alone(bytes, pages, &arithmetic) == Ok(told);
        }
    }

    // Goes on with the pages that a transaction left which is not run again.
    pub(crate) fn take_over(&mut self, pages: Vec<u32>) {
        if let Stage::Begun(begun) = &mut self.stage {
            begun.pages = pages;
        }
    }
}
