// What every layer shares: numbers as bytes, and how a refusal is told.
#![tactic(auto)]

ghost use Rattle.std.specs.Prelude.{◌≡◌, ℕ, List};
ghost use Rattle.std.specs.List.{slice_get};
ghost use Rattle.basics.specs.Bytes.{word_at};

mod trail;

pub use trail::{Full, Trail};

// The number in the four bytes from `at` on, most significant first, where all four are there.
pub fn word_at(bytes: &[u8], at: usize) -> Option<u32>
    ensures { result ≡ word_at bytes.now at }
{
    let four = bytes.get(at..)?.first_chunk::<4>()?;
    Some(u32::from_be_bytes(*four))
}

// Why a call is declined: the enum that implements this, and for hosts a number and values that tell more. `cause` and
// `returned` are their definitions.
pub trait Refusal {
    ghost cause: { Self → ℕ };

    ghost returned: { Self → List ℕ };

    fn number(&self) -> u32
        ensures { result ≡ cause self.now };

    // The value at `index`, counted from 0, or none where there are no more.
    fn value(&self, index: usize) -> Option<usize>
        ensures { result ≡ slice_get (returned self.now) index };
}
