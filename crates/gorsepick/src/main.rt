// Gorsepick carries out scenarios: text, a command a line, over page stores in memory.
#![tactic(auto)]

mod answer;
mod book;
mod command;
mod failure;
mod memory;
mod parse;
mod replay;
mod session;
mod shadows;
mod spoils;
mod store;
mod summary;
mod text;

use answer::Answer;
use engine::Engine;
use failure::Failure;
use parse::parse_scenario;
use session::Session;
use shadows::print_shadows;
use std::process::ExitCode;
use std::rt::{Env, Files};
use std::{env, fs, io};
use summary::{Tally, print_summary};

const HELP: &str = "\
gorsepick FILE    carries out the scenario in FILE
gorsepick         carries out the scenario on standard input
gorsepick --help  prints this

A scenario is text, a command a line, words parted by spaces. # starts a comment. Numbers are
decimal, 0 to 4294967295; BYTES are hexadecimal digits, two a byte; NAME is any word.

  flat W...            takes these words as a flat store
  log W...             takes these words as the memory of a log store
  arithmetic counters  or arithmetic flags: chooses the arithmetic
  script NAME BYTES    keeps the bytes under a name
  get P, put P W       reads a page of the store, or puts a word into it
  pages, words         shows all pages of the store, or the memory behind it
  image BYTES          reads a page image
  load BYTES           loads a page image into the store
  alone NAME           runs a script alone over the store, and puts what it has written
  allow K              lets each slot have K shadows, 1 to 8; 2 serve until then
  begin T NAME         opens slot T, 0 to 7, with a script
  turn T U             one step of slot T's shadow for slot U, or of its leading shadow: U = T
  commit T             puts what slot T's leading shadow has written, and closes the slot
  abort T              closes the slot, and puts nothing
  stand T U            where a shadow stands
  entry T U I          the step and page of a shadow's read number I, counted from 0
  shadows              shows every shadow of every open slot
  book                 the pages of the serial book: each committed script run alone, in order

Each command prints its words, an arrow and its answer; arithmetic and script print nothing.
A page that is not there is answered by fault P, or by fault STEP P where a script run alone
came to it; what is declined, by refused and the numbers of the refusal. A script at its end is
answered by R N: what register 0 holds, and how many pages were put. A summary ends the output.

The whole scenario is checked before any of it is carried out. The status is 0 when it was
carried out, and 1 when a line is wrong or the scenario cannot be read.
";

fn main(rt: HostRuntime) -> ExitCode {
    match run(&rt) {
        Ok(()) => ExitCode::SUCCESS,
        Err(failure) => {
            // Where nothing can be written, the status alone tells of the failure.
            let _ = eprintln!(rt; "{failure}");
            ExitCode::FAILURE
        }
    }
}

fn run(rt: &(impl Env + Files + Input + Print + AllocGlobal)) -> Result<(), Failure> {
    let arguments = env::args(rt)?.collect::<Vec<String>>(rt.alloc())?;
    match arguments.as_slice() {
        [] | [_] => carry_out(rt, io::read_to_string(rt.alloc(), rt.reader())),
        [_, argument] if argument.as_str() == "--help" => Ok(print!(rt; "{HELP}")?),
        [_, argument] => carry_out(rt, fs::read_to_string(rt, argument.as_str())),
        _ => Err(Failure::Arguments),
    }
}

// Checks the whole scenario, then carries it out command by command.
fn carry_out(rt: &(impl Print + AllocGlobal), input: io::Result<String>) -> Result<(), Failure> {
    let text = input.map_err(Failure::Unread)?;
    let heap = rt.alloc();
    let mut session = Session::new(heap);
    let mut tally = Tally::default();
    for line in parse_scenario(heap, text.as_str())? {
        let answer = session.carry_out(heap, line.command)?;
        tally.count(answer.as_ref());
        if let Some(answer) = answer {
            print_answer(rt, &session.engine, line.text.as_str(), &answer)?;
        }
    }
    print_summary(rt, &mut session, tally)
}

fn print_answer(rt: &impl Print, engine: &Engine, text: &str, answer: &Answer) -> io::Result<()> {
    if let Answer::Shadows { .. } = answer {
        print_shadows(rt, engine)?;
    }
    println!(rt; "{text} -> {answer}")
}
