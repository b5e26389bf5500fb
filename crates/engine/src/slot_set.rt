// Sets of slots.
ghost use Rattle.std.specs.Prelude.{◌≡◌, true, false, not, ◌&&◌, length, map, replicate, slice_index_or, slice_set};
ghost use Rattle.std.specs.List.{filter};
ghost use Rattle.std.specs.Iterator.{YieldsFirst, item_count};
ghost use Rattle.serial.specs.Rules.{slots};
ghost use Rattle.engine.specs.SlotSet.{is_member, flags, members};

use crate::slot::Slot;

// A set of slots, as the bits of a byte: a loop over the members comes to no other slot, and leaves the processor no flags
// to guess.
#[derive(Clone, Copy)]
pub(crate) struct SlotSet {
    bits: u8,
}

impl SlotSet {
    // The empty set.
    pub(crate) fn new() -> SlotSet
        ensures { flags result ≡ replicate 8 false }
    {
        SlotSet { bits: 0 }
    }

    pub(crate) fn has(self, u: Slot) -> bool
        ensures { result ≡ slice_index_or (flags self) u false }
    {
        self.bits >> u.index() & 1 == 1
    }

    pub(crate) fn insert(&mut self, u: Slot)
        ensures { flags self.new ≡ slice_set (flags self.old) u true }
    {
        self.bits |= 1 << u.index();
    }

    pub(crate) fn remove(&mut self, u: Slot)
        ensures { flags self.new ≡ slice_set (flags self.old) u false }
    {
        self.bits &= !(1 << u.index());
    }

    // Its members that are not members of the other.
    pub(crate) fn minus(self, other: SlotSet) -> SlotSet
        ensures { flags result ≡ map (λ u. is_member self u && not (is_member other u)) slots }
    {
        SlotSet {
            bits: self.bits & !other.bits,
        }
    }

    // How many members it has.
    pub(crate) fn len(self) -> usize
        ensures { result ≡ length (filter (λ b. b) (flags self)) }
    {
        self.bits.count_ones() as usize
    }

    // Takes the lowest member out.
    fn take_lowest(&mut self) -> Option<Slot>
        ensures { YieldsFirst members self.old result self.new }
    {
        let lowest = Slot::try_from(self.bits.trailing_zeros()).ok()?;
        // One less ends in a 0 where the lowest 1 is, and in ones after it.
        self.bits &= self.bits.wrapping_sub(1);
        Some(lowest)
    }

    // Its members in rising order.
    pub(crate) fn members(self) -> Members
        ensures { members result.left ≡ members self }
    {
        Members { left: self }
    }
}

// Hands out the members of a set, from the lowest on.
#[derive(Drop)]
pub(crate) struct Members {
    left: SlotSet,
}

impl Iterator for Members {
    type Item = Slot;

    ghost next_gives = { YieldsFirst (λ s. members s.left) };

    ghost remaining = { item_count (λ s. members s.left) };

    fn next(&mut self) -> Option<Slot> {
        self.left.take_lowest()
    }
}
