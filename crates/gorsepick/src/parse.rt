// From the text of a scenario to its commands.
ghost use Rattle.std.specs.Prelude.{◌≡◌, length, OnOk};

use crate::command::{Command, Line, Made, Question, Request};
use crate::failure::{Failure, Mistake};
use crate::memory::{Kind, Memory};
use crate::text::{parse_bytes, parse_number, parse_numbers};
use arithmetic::Delivered;
use std::alloc::Global;
use std::collections::BTreeMap;

// Reads line by line, and keeps what the lines so far have given, which later lines may need.
#[derive(Drop)]
struct Parser {
    heap: Global,
    // whether a line has given a store: a flag, since no later line asks which
    store: bool,
    scripts: BTreeMap<String, Vec<u8>>,
}

// The commands of a scenario, or the first line that is none. Nothing is carried out before all lines are sound.
pub(crate) fn parse_scenario(heap: Global, text: &str) -> Result<Vec<Line>, Failure> {
    let mut parser = Parser {
        heap,
        store: false,
        scripts: BTreeMap::new(heap),
    };
    text.lines()
        .enumerate()
        .filter_map(|(index, line)| {
            let number = index.saturating_add(1);
            parser
                .parse_line(line)
                .map_err(|mistake| Failure::Line { number, mistake })
                .transpose()
        })
        .try_collect(heap)
}

impl Parser {
    // The command of a line, or none where it is blank or a comment alone.
    fn parse_line(&mut self, line: &str) -> Result<Option<Line>, Mistake> {
        let code = line.split_once('#').map_or(line, |(code, _)| code);
        let words = code.split_whitespace().collect::<Vec<&str>>(self.heap)?;
        let [name, rest @ ..] = words.as_slice() else {
            return Ok(None);
        };
        let command = self.parse_command(name, rest)?;
        if command.needs_store() && !self.store {
            return Err(Mistake::NoStore);
        }
        let text = words.as_slice().join(self.heap, " ")?;
        Ok(Some(Line { text, command }))
    }

    // The command of a line, and what it gives to later lines.
    fn parse_command(&mut self, name: &str, words: &[&str]) -> Result<Command, Mistake> {
        let heap = self.heap;
        match name {
            "flat" => self.parse_store(Kind::Flat, words),
            "log" => self.parse_store(Kind::Log, words),
            "arithmetic" => parse_arithmetic(heap, words),
            "script" => self.parse_script(words),
            "get" => {
                let [page] = numbers::<1>(heap, words, "get P")?;
                Ok(Command::Ask(Request::Get { page }))
            }
            "put" => {
                let [page, word] = numbers::<2>(heap, words, "put P W")?;
                Ok(Command::Ask(Request::Put { page, word }))
            }
            "pages" => {
                expect(words, 0, "pages")?;
                Ok(Command::Ask(Request::Pages))
            }
            "words" => {
                expect(words, 0, "words")?;
                Ok(Command::Words)
            }
            "image" => Ok(Command::Image(parse_bytes(heap, words)?)),
            "load" => Ok(Command::Ask(Request::Load(parse_bytes(heap, words)?))),
            "alone" => self.parse_alone(words),
            _ => match self.parse_made(name, words)? {
                Some(made) => Ok(Command::Make(made)),
                None => Ok(Command::Look(parse_question(heap, name, words)?)),
            },
        }
    }

    // One of the five calls, where the name is one of theirs.
    fn parse_made(&self, name: &str, words: &[&str]) -> Result<Option<Made>, Mistake> {
        let heap = self.heap;
        match name {
            "allow" => {
                let [allowance] = numbers::<1>(heap, words, "allow K")?;
                Ok(Some(Made::Allow { allowance }))
            }
            "begin" => Ok(Some(self.parse_begin(words)?)),
            "turn" => {
                let [slot, other] = numbers::<2>(heap, words, "turn T U")?;
                Ok(Some(Made::Turn { slot, other }))
            }
            "commit" => {
                let [slot] = numbers::<1>(heap, words, "commit T")?;
                Ok(Some(Made::Commit { slot }))
            }
            "abort" => {
                let [slot] = numbers::<1>(heap, words, "abort T")?;
                Ok(Some(Made::Abort { slot }))
            }
            _ => Ok(None),
        }
    }

    fn parse_begin(&self, words: &[&str]) -> Result<Made, Mistake> {
        let [slot, name] = words else {
            return Err(miscount(words, 2, "begin T NAME"));
        };
        let slot = parse_number(self.heap, slot)?;
        let bytes = self.script_bytes(name)?;
        Ok(Made::Begin { slot, bytes })
    }

    fn parse_store(&mut self, kind: Kind, words: &[&str]) -> Result<Command, Mistake> {
        self.store = true;
        let words = parse_numbers(self.heap, words)?;
        Ok(Command::Store(Memory { kind, words }))
    }

    fn parse_script(&mut self, words: &[&str]) -> Result<Command, Mistake> {
        let [name, digits @ ..] = words else {
            return Err(Mistake::TooFew("script NAME BYTES"));
        };
        let name = String::from_str(self.heap, name)?;
        let bytes = parse_bytes(self.heap, digits)?;
        self.scripts.insert(name, bytes)?;
        Ok(Command::Script)
    }

    // The bytes that the last line before this one gave the name to.
    fn script_bytes(&self, name: &str) -> Result<Vec<u8>, Mistake> {
        match self.scripts.get(name) {
            Some(bytes) => Ok(bytes.clone()?),
            None => Err(Mistake::NoScript(String::from_str(self.heap, name)?)),
        }
    }

    fn parse_alone(&self, words: &[&str]) -> Result<Command, Mistake> {
        let [name] = words else {
            return Err(miscount(words, 1, "alone NAME"));
        };
        let bytes = self.script_bytes(name)?;
        Ok(Command::Ask(Request::Alone(bytes)))
    }
}

// What is asked of the engine or of the serial book.
fn parse_question(heap: Global, name: &str, words: &[&str]) -> Result<Question, Mistake> {
    match name {
        "stand" => {
            let [slot, other] = numbers::<2>(heap, words, "stand T U")?;
            Ok(Question::Stand { slot, other })
        }
        "entry" => {
            let [slot, other, index] = numbers::<3>(heap, words, "entry T U I")?;
            Ok(Question::Entry { slot, other, index })
        }
        "shadows" => {
            expect(words, 0, "shadows")?;
            Ok(Question::Shadows)
        }
        "book" => {
            expect(words, 0, "book")?;
            Ok(Question::Book)
        }
        _ => Err(Mistake::NoCommand(String::from_str(heap, name)?)),
    }
}

// Exactly so many numbers follow the command's name.
fn numbers<const N: usize>(
    heap: Global,
    words: &[&str],
    usage: &'static str,
) -> Result<[u32; N], Mistake>
    ensures { OnOk result (length words.now ≡ N) }
{
    expect(words, N, usage)?;
    // An array's `try_from_fn` and `try_map` would ask each caller to show that an iterator over N words fits in memory.
    let mut numbers = [0; N];
    for (number, word) in numbers.iter_mut().zip(words) {
        *number = parse_number(heap, word)?;
    }
    Ok(numbers)
}

// Exactly so many words follow the command's name.
fn expect(words: &[&str], count: usize, usage: &'static str) -> Result<(), Mistake>
    ensures { OnOk result (length words.now ≡ count) }
{
    if words.len() == count {
        Ok(())
    } else {
        Err(miscount(words, count, usage))
    }
}

// What is wrong with words that are not so many.
fn miscount(words: &[&str], count: usize, usage: &'static str) -> Mistake {
    if words.len() < count {
        Mistake::TooFew(usage)
    } else {
        Mistake::TooMany(usage)
    }
}

fn parse_arithmetic(heap: Global, words: &[&str]) -> Result<Command, Mistake> {
    let [word] = words else {
        let usage = "arithmetic counters or arithmetic flags";
        return Err(miscount(words, 1, usage));
    };
    match *word {
        "counters" => Ok(Command::Arithmetic(Delivered::Counting)),
        "flags" => Ok(Command::Arithmetic(Delivered::Flagging)),
        word => Err(Mistake::NoArithmetic(String::from_str(heap, word)?)),
    }
}
