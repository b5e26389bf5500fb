// What taking a step does to a shadow, an effect at a time. That there is room for it is a clause of each and no invariant: at
// the end of sixteen steps a shadow has none.
ghost use Rattle.std.specs.Prelude.{◌≡◌, ◌<◌, length};
ghost use Rattle.serial.specs.Machine.{with_register, recorded, take_effect, takes, reading, writing};
ghost use Rattle.engine.specs.View.{stand_of, with_own, with_steps, Room, Fetched, Took};

use super::{Shadow, place};
use crate::machine::Machine;
use arithmetic::Arithmetic;
use pages::{Reader, StoreFault, WriteEntry};
use script::{Action, Register, Step};
use serial::ReadEntry;

impl Shadow {
    // A word for a page, in the page's place on the own list or at the end.
    fn write(&mut self, page: u32, word: u32)
        requires { length (stand_of self.old).own < 16 }
        ensures { stand_of self.new ≡ with_own (stand_of self.old) page word }
    {
        let entry = WriteEntry { page, word };
        match place(self.own.as_slice(), page) {
            Some(at) => self.own.set(at, entry),
            None => self.own.push(entry).unwrap(),
        }
    }

    // Records a store read of the step that is next.
    fn record_read(&mut self, page: u32)
        requires { Room (stand_of self.old) }
        ensures { stand_of self.new ≡ recorded (stand_of self.old) page }
    {
        self.reads
            .push(ReadEntry {
                step: self.step as u32,
                page,
            })
            .unwrap();
    }

    // One step on, with a word in a register.
    fn take_word(&mut self, register: Register, word: u32)
        requires { (stand_of self.old).step < 16 }
        ensures { stand_of self.new ≡ with_register (stand_of self.old) register word }
    {
        self.registers[usize::from(register)] = word;
        self.step += 1;
    }

    // One step on, and as many more as are left out.
    fn skip(&mut self, count: u32)
        requires { (stand_of self.old).step < 16 }
        ensures { stand_of self.new ≡ with_steps (stand_of self.old) count }
    {
        self.step = self.step + 1 + count as usize;
    }

    // The word of a page for a read: that on the own list, else the store's, which is recorded.
    fn word_for<R: Reader>(&mut self, page: u32, reader: &R) -> Result<u32, StoreFault>
        requires { Room (stand_of self.old) }
        ensures { Fetched (R.Reader.pages reader.now) self.old page result self.new }
    {
        if let Some(word) = self.written(page) {
            return Ok(word);
        }
        let word = reader.read(page)?;
        self.record_read(page);
        Ok(word)
    }

    fn take_read<R: Reader>(
        &mut self,
        register: Register,
        page: u32,
        reader: &R,
    ) -> Result<(), StoreFault>
        requires { Room (stand_of self.old) }
        ensures { Took self.old (take_effect (R.Reader.pages reader.now) (stand_of self.old) (reading register page)) result self.new }
    {
        let word = self.word_for(page, reader)?;
        self.take_word(register, word);
        Ok(())
    }

    fn take_write<R: Reader>(&mut self, page: u32, word: u32, reader: &R) -> Result<(), StoreFault>
        requires { Room (stand_of self.old) }
        ensures { Took self.old (take_effect (R.Reader.pages reader.now) (stand_of self.old) (writing page word)) result self.new }
    {
        if page >= reader.size() {
            return Err(StoreFault { page });
        }
        self.write(page, word);
        self.step += 1;
        Ok(())
    }

    // Takes one step over the reader's pages. One for a page that the reader does not have leaves the shadow as it was.
    pub(crate) fn take_step<R: Reader, A: Arithmetic>(
        &mut self,
        step: &Step,
        machine: &Machine<R, A>,
    ) -> Result<(), StoreFault>
        requires { Room (stand_of self.old) }
        ensures { Took self.old (takes (A.Arithmetic.meaning machine.now.arithmetic.now) (R.Reader.pages machine.now.reader.now) step.now (stand_of self.old)) result self.new }
    {
        let operand = step.operand;
        match step.action {
            Action::Read(a) => self.take_read(a, operand, machine.reader),
            Action::ReadIndexed(a, b) => {
                let page = self.indexed_page(operand, b);
                self.take_read(a, page, machine.reader)
            }
            Action::Write(a) => {
                let word = self.register(a);
                self.take_write(operand, word, machine.reader)
            }
            Action::WriteIndexed(a, b) => {
                let page = self.indexed_page(operand, b);
                let word = self.register(a);
                self.take_write(page, word, machine.reader)
            }
            Action::Set(a) => {
                self.take_word(a, operand);
                Ok(())
            }
            Action::Combine(operation, a, b) => {
                let word = machine
                    .arithmetic
                    .combine(operation, self.register(a), self.register(b));
                self.take_word(a, word);
                Ok(())
            }
            Action::Skip(a, b) => {
                let count = if self.register(a) == self.register(b) {
                    operand
                } else {
                    0
                };
                self.skip(count);
                Ok(())
            }
        }
    }
}
