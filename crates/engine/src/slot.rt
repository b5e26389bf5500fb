// The eight slots.
ghost use Rattle.std.specs.Prelude.{◌≡◌, ℕ, ◌<◌, ◌≤◌, MatchResult};
ghost use Rattle.serial.specs.declared.fault.CallFault.TheVariants.{NoSlot};

use serial::CallFault;
use std::marker::Model;

// How many slots there are.
pub(crate) const SLOTS: usize = 8;

// A slot's number, 0 to 7: clauses see the number.
#[derive(Clone, Copy, PartialEq, Eq, Debug)]
pub(crate) struct Slot {
    number: usize,
}

impl Model for Slot {
    ghost Value = { ℕ };

    ghost view = { λ s. s.number };

    ghost invariant = { λ s. s.number < 8 };

    ghost inverse = { λ n. record { number = n } };
}

impl Slot {
    // Its place in an array of eight.
    pub(crate) fn index(self) -> usize
        ensures place { result ≡ self }
        ensures within { result < 8 }
    {
        self.number
    }
}

impl TryFrom<u32> for Slot {
    type Error = CallFault;

    ghost try_from_gives = { λ n r. MatchResult r (λ t. (t ≡ n) × (t ≤ 7)) (λ f. (f ≡ NoSlot n) × (7 < n)) };

    fn try_from(number: u32) -> Result<Slot, CallFault> {
        if number < SLOTS as u32 {
            Ok(Slot {
                number: number as usize,
            })
        } else {
            Err(CallFault::NoSlot(number))
        }
    }
}

impl From<Slot> for u32 {
    ghost from_gives = { λ t n. n ≡ t };

    fn from(slot: Slot) -> u32 {
        slot.number as u32
    }
}
