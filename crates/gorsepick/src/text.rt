// Numbers and bytes as a scenario writes them.
ghost use Rattle.std.specs.Prelude.{◌≡◌, ℕ, ◌<◌, List, [], ◌∷◌, ◌++◌, map, IfOk, OnOk, Some};
ghost use Rattle.std.specs.Option.{option_to_list, unwrap_or};
ghost use Rattle.gorsepick.specs.Digits.{digit_value, halves, Half, Worth, joined};

use crate::failure::Mistake;
use std::alloc::Global;
use std::marker::Model;

// Decimal digits alone: `parse` takes a sign too.
pub(crate) fn parse_number(heap: Global, word: &str) -> Result<u32, Mistake> {
    match word.parse::<u32>() {
        Ok(number) if !word.starts_with('+') => Ok(number),
        _ => Err(Mistake::NoNumber(String::from_str(heap, word)?)),
    }
}

pub(crate) fn parse_numbers(heap: Global, words: &[&str]) -> Result<Vec<u32>, Mistake> {
    words
        .iter()
        .map(|word| parse_number(heap, word))
        .try_collect(heap)
}

// What a hexadecimal digit is worth.
fn digit_value(digit: u8) -> Option<u8>
    ensures value { result ≡ digit_value digit }
    ensures half { Half result }
{
    char::from(digit).to_digit(16).map(|value| value as u8)
}

// Digits read so far: whole bytes, and the half byte that waits for its second. The kit's `hex` decodes one text, where
// here a byte may lie in two words, and a mistake names its word.
#[derive(Drop)]
struct Digits {
    bytes: Vec<u8>,
    high: Option<u8>,
}

// Seen as the values of the digits.
impl Model for Digits {
    ghost Value = { List ℕ };

    ghost view = { λ d. halves d.bytes.items ++ option_to_list d.high };

    ghost invariant = { λ d. unwrap_or d.high 0 < 16 };
}

impl Digits {
    fn new(heap: Global) -> Digits
        ensures { result ≡ [] }
    {
        Digits {
            bytes: Vec::new(heap),
            high: None,
        }
    }

    // Adds one more half byte.
    fn push_half(&mut self, half: u8) -> Result<(), Mistake>
        requires { half < 16 }
        ensures { OnOk result (self.new ≡ self.old ++ half ∷ []) }
    {
        match self.high.take() {
            None => self.high = Some(half),
            Some(first) => self.bytes.push(first * 16 + half)?,
        }
        Ok(())
    }

    // Adds the digits of a word. A `for` with `?`, since each may fail and all add to the same bytes.
    fn push_digits(&mut self, heap: Global, word: &str) -> Result<(), Mistake>
        ensures { OnOk result (map Some self.new ≡ map Some self.old ++ map digit_value word.now) }
    {
        for digit in word.as_bytes() {
            match digit_value(*digit) {
                Some(half) => self.push_half(half)?,
                None => return Err(Mistake::NoDigits(String::from_str(heap, word)?)),
            }
        }
        Ok(())
    }

    // The bytes, where no half byte is left over.
    fn finish(self) -> Result<Vec<u8>, Mistake>
        ensures { IfOk result (λ v. halves v.items ≡ self) }
    {
        match self.high {
            None => Ok(self.bytes),
            Some(_) => Err(Mistake::OddDigits),
        }
    }
}

// The bytes of hexadecimal digits, two a byte, whatever words they are cut into. A `for`, as in `push_digits`.
pub(crate) fn parse_bytes(heap: Global, words: &[&str]) -> Result<Vec<u8>, Mistake>
    ensures { IfOk result (λ v. Worth (joined words.now) (halves v.items)) }
{
    let mut digits = Digits::new(heap);
    for word in words {
        digits.push_digits(heap, word)?;
    }
    digits.finish()
}
