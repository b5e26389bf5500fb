// A page image: bytes that name some pages with their words. It is read and never written.
ghost use Rattle.std.specs.Prelude.{◌≡◌, ℕ, ◌+◌, ◌*◌, [], length, slice_index_or, EachIndex, Some, None, MatchResult};
ghost use Rattle.std.specs.Int.{w32, from_be_bytes};
ghost use Rattle.pages.specs.Entries.{latest};
ghost use Rattle.pages.specs.Image.{image_size, image_named, named_page, named_word, first_bad, bad_number, image_fault, image_pages, image_few};

use crate::{ImageFault, MOST, Reader, StoreFault};
use basics::word_at;

// The bytes are borrowed, and nothing is wrong with them.
#[derive(Clone, Copy)]
pub struct Image<'a> {
    bytes: &'a [u8],
    ghost sound: { image_fault bytes.now ≡ None },
}

// The page numbers and the words beside them, each in four bytes.
fn entries(bytes: &[u8]) -> (&[[u8; 4]], &[[u8; 4]])
    requires { length bytes.now ≡ 8 + 8 * image_named bytes.now }
    ensures pages { length result.0.now ≡ image_named bytes.now }
    ensures words { length result.1.now ≡ image_named bytes.now }
    ensures page { EachIndex result.0.now (λ i. from_be_bytes w32 (slice_index_or result.0.now i []) ≡ named_page bytes.now i) }
    ensures word { EachIndex result.1.now (λ i. from_be_bytes w32 (slice_index_or result.1.now i []) ≡ named_word bytes.now i) }
{
    let (numbers, _) = bytes[8..].as_chunks::<4>();
    let named = numbers.len() / 2;
    numbers.split_at(named)
}

// The page numbers rise, below the size: the first that does not is a fault, told by its offset.
fn check_numbers(bytes: &[u8], size: u32) -> Result<(), ImageFault>
    requires long { length bytes.now ≡ 8 + 8 * image_named bytes.now }
    requires size { size ≡ image_size bytes.now }
    ensures { MatchResult result (λ _. first_bad bytes.now (image_named bytes.now) ≡ None) (λ f. bad_number (first_bad bytes.now (image_named bytes.now)) ≡ Some f) }
{
    let (numbers, _) = entries(bytes);
    let mut least = 0;
    for (i, number) in numbers.iter().enumerate() {
        let page = u32::from_be_bytes(*number);
        if page < least || page >= size {
            return Err(ImageFault::BadNumber(8 + 4 * i));
        }
        least = page + 1;
    }
    Ok(())
}

// What is wrong with the bytes, by the first check that fails.
fn check(bytes: &[u8]) -> Result<(), ImageFault>
    ensures { MatchResult result (λ _. image_fault bytes.now ≡ None) (λ f. image_fault bytes.now ≡ Some f) }
{
    let len = bytes.len();
    let (Some(size), Some(named)) = (word_at(bytes, 0), word_at(bytes, 4)) else {
        return Err(ImageFault::Truncated(len));
    };
    if size > MOST {
        return Err(ImageFault::TooManyPages);
    }
    if named > size {
        return Err(ImageFault::TooManyNamed);
    }
    if len != 8 + 8 * named as usize {
        return Err(ImageFault::WrongLength(len));
    }
    check_numbers(bytes, size)
}

impl<'a> Image<'a> {
    // `parse` stays, since hosts call it; a `TryFrom` beside it would promise the same twice.
    pub fn parse(bytes: &'a [u8]) -> Result<Image<'a>, ImageFault>
        ensures { MatchResult result (λ i. (image_fault bytes.now ≡ None) × (image_pages i.bytes.now ≡ image_pages bytes.now)) (λ f. image_fault bytes.now ≡ Some f) }
    {
        check(bytes)?;
        Ok(Image { bytes })
    }

    // The word beside the number `page`, or 0 where no number names it. The numbers rise.
    fn find(&self, page: u32) -> u32
        ensures { result ≡ latest (named_page self.now.bytes.now) (named_word self.now.bytes.now) page 0 (image_named self.now.bytes.now) }
    {
        let (numbers, words) = entries(self.bytes);
        match numbers.binary_search_by_key(&page, |number| u32::from_be_bytes(*number)) {
            Ok(i) => u32::from_be_bytes(words[i]),
            Err(_) => 0,
        }
    }
}

impl<'a> Reader for Image<'a> {
    ghost pages = { λ s. image_pages s.bytes.now };

    ghost few = { λ s. image_few s.bytes.now s.sound };

    fn size(&self) -> u32 {
        word_at(self.bytes, 0).unwrap()
    }

    fn read(&self, page: u32) -> Result<u32, StoreFault> {
        if page < self.size() {
            Ok(self.find(page))
        } else {
            Err(StoreFault { page })
        }
    }
}
