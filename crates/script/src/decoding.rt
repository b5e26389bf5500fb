// Decoding: bytes to steps.
ghost use Rattle.std.specs.Prelude.{◌≡◌, ℕ, ◌+◌, ◌*◌, ◌<◌, ◌≤◌, length, Ok, Err, MatchResult};
ghost use Rattle.std.specs.List.{slice_get};
ghost use Rattle.basics.specs.Bytes.{big_endian};
ghost use Rattle.script.specs.Script.{register, size_told, defined, steps_told, code_at, step_at, decoded};
ghost use Rattle.script.specs.Laws.{Decodes};
ghost use Rattle.script.specs.Positions.{DecodedByPosition};
ghost use Rattle.script.specs.View.{steps_of};

use crate::{Action, MOST_STEPS, Register, Script, ScriptFault, Step};
use arithmetic::Operation;
use basics::{Trail, word_at};

// What fills the places past a script's end.
const UNUSED: Step = Step {
    action: Action::Set(Register::R0),
    operand: 0,
};

// Two bits always name a register. That is no `From<u8>`, which would promise it of every byte.
fn register_from(n: u8) -> Register
    ensures { result ≡ register n }
{
    match n {
        0 => Register::R0,
        1 => Register::R1,
        2 => Register::R2,
        _ => Register::R3,
    }
}

// Step `i` of `n`, by its action, its registers and its operand, where it is defined.
fn step_from(n: usize, i: usize, action: u8, a: u8, b: u8, operand: u32) -> Option<Step>
    requires { i ≤ 16 }
    ensures { result ≡ defined n i action a b operand }
{
    let first = register_from(a);
    let second = register_from(b);
    let action = match action {
        0 if b == 0 => Action::Read(first),
        1 => Action::ReadIndexed(first, second),
        2 if b == 0 => Action::Write(first),
        3 => Action::WriteIndexed(first, second),
        4 if b == 0 => Action::Set(first),
        5 => Action::Combine(Operation::try_from(operand).ok()?, first, second),
        6 if (1..=15).contains(&operand) && i + 1 + operand as usize <= n => Action::Skip(
            first, second,
        ),
        _ => return None,
    };
    Some(Step { action, operand })
}

// How many steps fit bytes have.
fn fit_size(bytes: &[u8]) -> Option<usize>
    ensures { result ≡ size_told bytes.now }
{
    let n = *bytes.first()? as usize;
    ((1..=MOST_STEPS).contains(&n) && bytes.len() == 1 + 5 * n).then_some(n)
}

// Step `i` of fit bytes, where it is defined.
fn decode_step(bytes: &[u8], n: usize, i: usize, code: u8) -> Option<Step>
    requires size { n ≡ steps_told bytes.now }
    requires few { n ≤ 16 }
    requires long { length bytes.now ≡ 1 + 5 * n }
    requires within { i < n }
    requires code { code ≡ code_at bytes.now i }
    ensures { result ≡ step_at bytes.now i }
{
    let operand = word_at(bytes, 1 + n + 4 * i)?;
    step_from(n, i, code / 16, code / 4 % 4, code % 4, operand)
}

// Decodes a script, or says why there is none. That is no `TryFrom`, whose one promise has no room for the second clause.
#[tactic(auto, using(crate::proofs::Decoded::decodes, crate::proofs::Positions::decoded_by_position))]
pub fn decode(bytes: &[u8]) -> Result<Script, ScriptFault>
    ensures rule { MatchResult result (λ s. decoded bytes.now ≡ Ok (steps_of s)) (λ f. decoded bytes.now ≡ Err f) }
    ensures told { Decodes bytes.now (decoded bytes.now) }
    ensures positions { DecodedByPosition bytes.now }
{
    let n = fit_size(bytes).ok_or(ScriptFault::Unfit(bytes.len()))?;
    let mut steps = Trail::new(UNUSED);
    // The project wants this loop over the code bytes with their index, so an operand's place is worked out from that.
    for (i, code) in bytes[1..1 + n].iter().enumerate() {
        let step = decode_step(bytes, n, i, *code).ok_or(ScriptFault::Undefined(i))?;
        steps.push(step).unwrap();
    }
    Ok(Script { steps })
}

impl Script {
    pub fn as_slice(&self) -> &[Step]
        ensures { result.now ≡ steps_of self.now }
    {
        self.steps.as_slice()
    }

    // How many steps there are.
    pub fn len(&self) -> usize
        ensures count { result ≡ length (steps_of self.now) }
        ensures few { result ≤ 16 }
    {
        self.steps.len()
    }

    // The step with this number, counted from 0, or none at and past the end.
    pub fn step(&self, index: usize) -> Option<Step>
        ensures { result ≡ slice_get (steps_of self.now) index }
    {
        self.steps.get(index)
    }
}
