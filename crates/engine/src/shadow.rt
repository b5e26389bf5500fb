// A shadow: how far a script has come on its own, over pages that it does not change.
ghost use Rattle.std.specs.Prelude.{◌≡◌};
ghost use Rattle.std.specs.List.{slice_get};
ghost use Rattle.basics.specs.Trail.{items_of};
ghost use Rattle.serial.specs.Machine.{start as started, holds, written as word_written, has_read, has_written, has_read_any, indexed, page_read, page_written, store_read, write_of};
ghost use Rattle.engine.specs.View.{stand_of, Placed};

use basics::Trail;
use pages::WriteEntry;
use script::{Action, MOST_STEPS, Register, Step};
use serial::ReadEntry;

mod effects;

/// A run of a slot's script that has come so far. A fork copies it by value, from one place of its row to another.
// Clauses see it by `stand_of`: a model would forget the unused places of its lists, and a copy needs them.
#[derive(Clone, Copy)]
pub struct Shadow {
    step: usize,
    registers: [u32; 4],
    reads: Trail<ReadEntry, MOST_STEPS>,
    own: Trail<WriteEntry, MOST_STEPS>,
}

// Where a page stands on an own list.
fn place(own: &[WriteEntry], page: u32) -> Option<usize>
    ensures { Placed own.now page result }
{
    own.iter().position(|entry| entry.page == page)
}

// Whether a page stands on an own list.
pub(crate) fn has_written(own: &[WriteEntry], page: u32) -> bool
    ensures { result ≡ has_written own.now page }
{
    own.iter().any(|entry| entry.page == page)
}

impl Shadow {
    // A shadow at step 0.
    pub(crate) fn start() -> Shadow
        ensures { stand_of result ≡ started }
    {
        Shadow {
            step: 0,
            registers: [0; 4],
            reads: Trail::new(ReadEntry { step: 0, page: 0 }),
            own: Trail::new(WriteEntry { page: 0, word: 0 }),
        }
    }

    /// The step that is next, from 0; past the last one at the end.
    pub fn step(&self) -> usize
        ensures { result ≡ (stand_of self.now).step }
    {
        self.step
    }

    /// The recorded reads: the step and page of each store read, in order.
    pub fn reads(&self) -> &[ReadEntry]
        ensures { result.now ≡ (stand_of self.now).reads }
    {
        self.reads.as_slice()
    }

    // The recorded read with this index, counted from 0.
    pub(crate) fn read(&self, index: usize) -> Option<ReadEntry>
        ensures { result ≡ slice_get (stand_of self.now).reads index }
    {
        self.reads.get(index)
    }

    /// The own list: each page that was written, once, in order of first write, with its latest word.
    pub fn own(&self) -> &[WriteEntry]
        ensures { result.now ≡ (stand_of self.now).own }
    {
        self.own.as_slice()
    }

    // A copy of the own list.
    pub(crate) fn own_copy(&self) -> Trail<WriteEntry, MOST_STEPS>
        ensures { items_of result ≡ (stand_of self.now).own }
    {
        self.own
    }

    /// What a register holds.
    pub fn register(&self, register: Register) -> u32
        ensures { result ≡ holds (stand_of self.now) register }
    {
        self.registers[usize::from(register)]
    }

    // The word that the shadow has written to a page.
    pub(crate) fn written(&self, page: u32) -> Option<u32>
        ensures { result ≡ word_written (stand_of self.now).own page }
    {
        let own = self.own();
        Some(own[place(own, page)?].word)
    }

    // Whether a recorded read names the page.
    pub(crate) fn has_read(&self, page: u32) -> bool
        ensures { result ≡ has_read (stand_of self.now).reads page }
    {
        self.reads().iter().any(|read| read.page == page)
    }

    /// Whether a recorded read names a page of the list. Both loops end at the first such page.
    pub fn has_read_any(&self, list: &[WriteEntry]) -> bool
        ensures { result ≡ has_read_any (stand_of self.now).reads list.now }
    {
        let reads = self.reads.as_slice();
        let mut found = false;
        'reads: for read in reads {
            for write in list {
                if write.page == read.page {
                    found = true;
                    break 'reads;
                }
            }
        }
        found
    }

    // The page that an operand and a register name together, modulo 2^32.
    fn indexed_page(&self, operand: u32, register: Register) -> u32
        ensures { result ≡ indexed operand (holds (stand_of self.now) register) }
    {
        operand.wrapping_add(self.register(register))
    }

    // The page that a step reads, from the store or the own list.
    fn page_read(&self, step: Step) -> Option<u32>
        ensures { result ≡ page_read step.action step.operand (stand_of self.now) }
    {
        match step.action {
            Action::Read(_) => Some(step.operand),
            Action::ReadIndexed(_, b) => Some(self.indexed_page(step.operand, b)),
            _ => None,
        }
    }

    fn page_written(&self, step: Step) -> Option<u32>
        ensures { result ≡ page_written step.action step.operand (stand_of self.now) }
    {
        match step.action {
            Action::Write(_) => Some(step.operand),
            Action::WriteIndexed(_, b) => Some(self.indexed_page(step.operand, b)),
            _ => None,
        }
    }

    // The page of the store read that the next step is, where it is one.
    pub(crate) fn store_read(&self, step: Option<Step>) -> Option<u32>
        ensures { result ≡ store_read step (stand_of self.now) }
    {
        let page = self.page_read(step?)?;
        self.written(page).is_none().then_some(page)
    }

    // The page that the next step writes, where it is a write.
    pub(crate) fn write_of(&self, step: Option<Step>) -> Option<u32>
        ensures { result ≡ write_of step (stand_of self.now) }
    {
        self.page_written(step?)
    }
}
