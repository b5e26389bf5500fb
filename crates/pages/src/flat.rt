// The flat store: the host's words as they lie.
ghost use Rattle.std.specs.Prelude.{◌≡◌, ℕ, ◌≤◌, length};
ghost use Rattle.pages.specs.Flat.{flat_pages, flat_few, flat_wrote};

use crate::{MOST, Reader, Store, StoreFault};

#[derive(Drop)]
pub struct Flat<'a> {
    words: &'a mut [u32],
}

impl<'a> Flat<'a> {
    pub fn new(words: &'a mut [u32]) -> Flat<'a>
        ensures words { result.words.now ≡ words.old }
        ensures lender { result.words.ghost_name ≡ words.entry.ghost_name }
    {
        Flat { words }
    }

    // The words, or none where there are too many.
    fn pages(&self) -> &[u32]
        ensures { result.now ≡ flat_pages self.now.words.now }
    {
        if self.words.len() > MOST as usize {
            return &[];
        }
        &self.words[..]
    }
}

impl<'a> Reader for Flat<'a> {
    ghost pages = { λ s. flat_pages s.words.now };

    ghost few = { λ s. flat_few s.words.now };

    fn size(&self) -> u32 {
        self.pages().len() as u32
    }

    fn read(&self, page: u32) -> Result<u32, StoreFault> {
        let word = self.pages().get(page as usize);
        word.copied().ok_or(StoreFault { page })
    }
}

impl<'a> Store for Flat<'a> {
    ghost wrote = { flat_wrote };

    fn put(&mut self, page: u32, word: u32) -> Result<(), StoreFault> {
        if page >= self.size() {
            return Err(StoreFault { page });
        }
        self.words[page as usize] = word;
        Ok(())
    }
}
