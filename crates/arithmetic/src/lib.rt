// What a script's combine step computes with.
#![tactic(auto)]

ghost use Rattle.std.specs.Prelude.{◌≡◌, ℕ};
ghost use Rattle.arithmetic.specs.Words.{counters, flags, delivered, operation_told, number};
ghost use Rattle.arithmetic.specs.declared.Operation.{Operation};

// One of the three operations that every arithmetic gives a meaning to, numbered 0, 1 and 2.
#[derive(Clone, Copy, PartialEq, Eq, Debug)]
pub enum Operation {
    Zero,
    One,
    Two,
}

// A number that names no operation.
#[derive(Clone, Copy, PartialEq, Eq, Debug)]
pub struct UnknownOperation {
    pub number: u32,
}

impl TryFrom<u32> for Operation {
    type Error = UnknownOperation;

    ghost try_from_gives = { λ n r. r ≡ operation_told n };

    fn try_from(number: u32) -> Result<Operation, UnknownOperation> {
        match number {
            0 => Ok(Operation::Zero),
            1 => Ok(Operation::One),
            2 => Ok(Operation::Two),
            _ => Err(UnknownOperation { number }),
        }
    }
}

impl From<Operation> for u32 {
    ghost from_gives = { λ operation n. n ≡ number operation };

    fn from(operation: Operation) -> u32 {
        operation as u32
    }
}

// An arithmetic means one function from an operation and two words to a word.
pub trait Arithmetic {
    ghost meaning: { Self → Operation → ℕ → ℕ → ℕ };

    fn combine(&self, operation: Operation, a: u32, b: u32) -> u32
        ensures { result ≡ meaning self.now operation a b };
}

// Counting: the sum, the difference and the larger.
#[derive(Clone, Copy, Debug)]
pub struct Counters;

impl Arithmetic for Counters {
    ghost meaning = { λ _. counters };

    fn combine(&self, operation: Operation, a: u32, b: u32) -> u32 {
        match operation {
            Operation::Zero => a.wrapping_add(b),
            Operation::One => a.wrapping_sub(b),
            Operation::Two => a.max(b),
        }
    }
}

// Flags, bit by bit: both, either and exactly one.
#[derive(Clone, Copy, Debug)]
pub struct Flags;

impl Arithmetic for Flags {
    ghost meaning = { λ _. flags };

    fn combine(&self, operation: Operation, a: u32, b: u32) -> u32 {
        match operation {
            Operation::Zero => a & b,
            Operation::One => a | b,
            Operation::Two => a ^ b,
        }
    }
}

// Either delivery, for a host that chooses at run time: by value, since a `dyn` would need a heap or a borrow.
#[derive(Clone, Copy, Debug, PartialEq, Eq)]
pub enum Delivered {
    Counting,
    Flagging,
}

impl Arithmetic for Delivered {
    ghost meaning = { delivered };

    fn combine(&self, operation: Operation, a: u32, b: u32) -> u32 {
        match self {
            Delivered::Counting => Counters.combine(operation, a, b),
            Delivered::Flagging => Flags.combine(operation, a, b),
        }
    }
}
