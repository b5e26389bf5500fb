// Pages of words: what a reader and a store of them are, and the stores, images and loading that are delivered.
#![tactic(auto)]

ghost use Rattle.std.specs.Prelude.{◌≡◌, ℕ, ◌≤◌, List, length};
ghost use Rattle.pages.specs.Pages.{word_at, Put};
ghost use Rattle.pages.specs.ByIndex.{SoundByIndex, LogPagesByIndex, LogPutByIndex, OneLogPut, FirstBadByIndex, ImageFaultsInOrder, ImagePagesByIndex, LoadsEndAlike};

mod fault;
mod flat;
mod image;
mod load;
mod log;

pub use fault::{ImageFault, ImageLoadFault, LoadFault};
pub use flat::Flat;
pub use image::Image;
pub use load::{load_image, load_pages};
pub use log::Log;

// The most pages that a reader has.
const MOST: u32 = 4096;

// No page has this number: the reader's or store's size is not above it.
#[derive(Clone, Copy, PartialEq, Eq, Debug)]
pub struct StoreFault {
    pub page: u32,
}

// A word for a page: an entry of a write set.
#[repr(C)]
#[derive(Clone, Copy, PartialEq, Eq, Debug)]
pub struct WriteEntry {
    pub page: u32,
    pub word: u32,
}

// A page reader means a list of at most 4,096 words, its pages, numbered from 0.
pub trait Reader {
    ghost pages: { Self → List ℕ };

    ghost few: { (s : Self) → length (pages s) ≤ 4096 };

    fn size(&self) -> u32
        ensures { result ≡ length (pages self.now) };

    fn read(&self, page: u32) -> Result<u32, StoreFault>
        ensures { result ≡ word_at (pages self.now) page };
}

// A page store is a page reader that can also be written. `wrote` says what an accepted put does to the memory behind
// it, and a refused put changes nothing.
pub trait Store: Reader {
    ghost wrote: { Self → ℕ → ℕ → Self → Type 0 };

    fn put(&mut self, page: u32, word: u32) -> Result<(), StoreFault>
        ensures { Put Self.Reader.pages wrote self.old page word result self.new };
}

// Logs, puts to a log and images told by index, which is just what the rules compute. The function does nothing: its contract
// is what is proved.
pub fn pages_by_index()
    ensures sound { SoundByIndex }
    ensures log { LogPagesByIndex }
    ensures put { LogPutByIndex }
    ensures one_put { OneLogPut }
    ensures bad { FirstBadByIndex }
    ensures faults { ImageFaultsInOrder }
    ensures image { ImagePagesByIndex }
    ensures loads { LoadsEndAlike }
{}
