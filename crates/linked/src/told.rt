// What a host in C is told: a refusal's number or 0, and up to three values.
ghost use Rattle.std.specs.Prelude.{◌≡◌, [], ◌∷◌};
ghost use Rattle.serial.specs.Faults.{call_cause, call_returned};
ghost use Rattle.linked.specs.Told.{told as told_of, declined as declined_of, turned_number, standing_number, stand_told_by, entry_told_by};

use basics::Refusal;
use serial::{CallFault, ReadEntry, Standing, Turned};

/// What a call or a question answers: the number of its refusal (docs/REFUSALS.md), or 0, and up to three values. What
/// they are for each is in docs/LINKING.md.
#[repr(C)]
#[derive(Clone, Copy)]
pub struct Told {
    refusal: u32,
    count: u32,
    values: [usize; 3],
}

// An accepted call with no value, with one and with two.
pub(crate) fn told_none() -> Told
    ensures { result ≡ told_of 0 [] }
{
    Told {
        refusal: 0,
        count: 0,
        values: [0; 3],
    }
}

pub(crate) fn told_one(a: usize) -> Told
    ensures { result ≡ told_of 0 (a ∷ []) }
{
    Told {
        refusal: 0,
        count: 1,
        values: [a, 0, 0],
    }
}

pub(crate) fn told_two(a: usize, b: usize) -> Told
    ensures { result ≡ told_of 0 (a ∷ b ∷ []) }
{
    Told {
        refusal: 0,
        count: 2,
        values: [a, b, 0],
    }
}

// A declined call: the refusal's number and its values.
pub(crate) fn declined(fault: CallFault) -> Told
    ensures { result ≡ declined_of fault }
{
    let refusal = fault.number();
    match (fault.value(0), fault.value(1), fault.value(2)) {
        (Some(a), Some(b), Some(c)) => Told {
            refusal,
            count: 3,
            values: [a, b, c],
        },
        (Some(a), Some(b), _) => Told {
            refusal,
            count: 2,
            values: [a, b, 0],
        },
        (Some(a), _, _) => Told {
            refusal,
            count: 1,
            values: [a, 0, 0],
        },
        _ => Told {
            refusal,
            count: 0,
            values: [0; 3],
        },
    }
}

pub(crate) fn number_of_turned(turned: Turned) -> usize
    ensures { result ≡ turned_number turned }
{
    match turned {
        Turned::Moved => 0,
        Turned::Ended => 1,
        Turned::Waiting => 2,
    }
}

fn number_of_standing(standing: Standing) -> usize
    ensures { result ≡ standing_number standing }
{
    match standing {
        Standing::AtEnd => 0,
        Standing::Halted => 1,
        Standing::Ready => 2,
    }
}

pub(crate) fn told_stand(res: Result<(usize, Standing), CallFault>) -> Told
    ensures { result ≡ stand_told_by res }
{
    match res {
        Ok((step, standing)) => told_two(step, number_of_standing(standing)),
        Err(fault) => declined(fault),
    }
}

pub(crate) fn told_entry(res: Result<Option<ReadEntry>, CallFault>) -> Told
    ensures { result ≡ entry_told_by res }
{
    match res {
        Ok(None) => told_none(),
        Ok(Some(read)) => told_two(read.step as usize, read.page as usize),
        Err(fault) => declined(fault),
    }
}
