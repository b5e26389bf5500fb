// The pages of a store in a host's words.
ghost use Rattle.std.specs.Prelude.{◌≡◌, ℕ, ◌<◌, ◌≤◌, length};
ghost use Rattle.linked.specs.Host.{pages_in, PageRead, PagePut, page_missed};

use pages::{Flat, Log, Reader, Store, StoreFault};

/// How many pages the host's words are, as a flat store or as a log store (docs/PAGES.md).
#[unsafe(no_mangle)]
pub extern "C" fn gorsepick_size(words: &mut [u32], log: bool) -> u32
    ensures size { result ≡ length (pages_in log words.old) }
    ensures words { words.new ≡ words.old }
{
    if log {
        Log::new(words).size()
    } else {
        Flat::new(words).size()
    }
}

/// Reads a page into `word` and answers true, or tells the page of the fault in `missing` and answers false.
#[unsafe(no_mangle)]
pub extern "C" fn gorsepick_read(
    words: &mut [u32],
    log: bool,
    page: u32,
    word: &mut u32,
    missing: &mut u32,
) -> bool
    ensures read { PageRead (pages_in log words.old) page word.old result word.new }
    ensures missing { missing.new ≡ page_missed (pages_in log words.old) page missing.old }
    ensures words { words.new ≡ words.old }
{
    let result = if log {
        Log::new(words).read(page)
    } else {
        Flat::new(words).read(page)
    };
    match result {
        Ok(found) => {
            *word = found;
            true
        }
        Err(StoreFault { page }) => {
            *missing = page;
            false
        }
    }
}

/// Puts a word to a page and answers true, or tells the page of the fault in `missing` and answers false.
#[unsafe(no_mangle)]
pub extern "C" fn gorsepick_put(
    words: &mut [u32],
    log: bool,
    page: u32,
    word: u32,
    missing: &mut u32,
) -> bool
    ensures put { PagePut log page word words.old result words.new }
    ensures missing { missing.new ≡ page_missed (pages_in log words.old) page missing.old }
{
    let result = if log {
        Log::new(words).put(page, word)
    } else {
        Flat::new(words).put(page, word)
    };
    match result {
        Ok(()) => true,
        Err(StoreFault { page }) => {
            *missing = page;
            false
        }
    }
}
