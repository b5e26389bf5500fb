// The log store: base words, and a log of entries over them.
ghost use Rattle.std.specs.Prelude.{◌≡◌, ℕ, ◌+◌, ◌<◌, ◌≤◌, length, slice_index, slice_set, EachIndex, Some, MatchResult};
ghost use Rattle.pages.specs.Entries.{carried, latest, all_below};
ghost use Rattle.pages.specs.Log.{entry_page, entry_word, used, layout_of, log_pages, log_few, Latest, log_put};
ghost use Rattle.pages.specs.Pages.{word_at, fault_at};

use crate::{MOST, Reader, Store, StoreFault};

// What the first two words of a sound layout say: how many pages there are, and how many entries there is room for.
#[derive(Clone, Copy)]
struct Layout {
    size: u32,
    room: usize,
}

// The layout is none where the words are not sound. A put keeps it, so it is found out once.
#[derive(Drop)]
pub struct Log<'a> {
    words: &'a mut [u32],
    layout: Option<Layout>,
    ghost ok: { layout ≡ layout_of words.now },
}

// Whether all the numbers are below the limit.
fn are_below(numbers: &[u32], limit: u32) -> bool
    ensures { result ≡ all_below (slice_index numbers.now) limit (length numbers.now) }
{
    // By the highest, for which the processor looks at many at a time. Of no numbers it is 0, which says nothing.
    let highest = numbers
        .iter()
        .fold(0, |highest, &number| number.max(highest));
    numbers.is_empty() || highest < limit
}

// Carries entries into base words, in order.
fn carry(base: &mut [u32], pages: &[u32], words: &[u32])
    requires long { length words.now ≡ length pages.now }
    requires low { EachIndex pages.now (λ i. slice_index pages.now i < length base.old) }
    ensures { base.new ≡ carried (slice_index pages.now) (slice_index words.now) 0 base.old (length pages.now) }
{
    // A `zip` would look for the end of both at each turn.
    for (i, &page) in pages.iter().enumerate() {
        base[page as usize] = words[i];
    }
}

// Carries all entries into the base words, and marks none as used, before one is written (docs/PAGES.md). The put writes over
// the mark, so a compiler may leave it out: this is not built into the put, and the put reads the mark again.
#[inline(never)]
fn empty(sizes: &mut [u32], base: &mut [u32], pages: &[u32], words: &[u32])
    requires sizes { 2 < length sizes.old }
    requires long { length words.now ≡ length pages.now }
    requires low { EachIndex pages.now (λ i. slice_index pages.now i < length base.old) }
    ensures sizes { sizes.new ≡ slice_set sizes.old 2 0 }
    ensures base { base.new ≡ carried (slice_index pages.now) (slice_index words.now) 0 base.old (length pages.now) }
{
    carry(base, pages, words);
    sizes[2] = 0;
}

impl Layout {
    fn of(words: &[u32]) -> Option<Layout>
        ensures { result ≡ layout_of words.now }
    {
        let &[size, room, used, ref rest @ ..] = words else {
            return None;
        };
        if size > MOST || room == 0 || room > MOST || used > room {
            return None;
        }
        let (pages, room) = (size as usize, room as usize);
        if rest.len() != pages + 2 * room {
            return None;
        }
        // A branch, and no `then_some`: a read or put of a log just made then need not wait for the last number.
        if !are_below(&rest[pages..pages + used as usize], size) {
            return None;
        }
        Some(Layout { size, room })
    }

    // The word of a page: that of the last used entry that names it, else its base word.
    fn find(self, words: &[u32], page: u32) -> u32
        requires fits { layout_of words.now ≡ Some self }
        requires low { page < self.size }
        ensures { result ≡ latest (entry_page words.now) (entry_word words.now) page (slice_index words.now (3 + page)) (used words.now) }
    {
        let (sizes, rest) = words.split_at(3);
        let (base, entries) = rest.split_at(self.size as usize);
        let (pages, words) = entries.split_at(self.room);
        match pages[..sizes[2] as usize]
            .iter()
            .rposition(|&named| named == page)
        {
            Some(i) => words[i],
            None => base[page as usize],
        }
    }

    // One more used entry, after all are carried into the base words where there is no room. The cuts are those of `find`, by
    // the methods of slices that are written to.
    fn put(self, words: &mut [u32], page: u32, word: u32)
        requires fits { layout_of words.old ≡ Some self }
        requires low { page < self.size }
        ensures { words.new ≡ log_put words.old page word }
    {
        let (sizes, rest) = words.split_at_mut(3);
        let (base, entries) = rest.split_at_mut(self.size as usize);
        let (pages, words) = entries.split_at_mut(self.room);
        if sizes[2] as usize == self.room {
            empty(sizes, base, pages, words);
        }
        let used = sizes[2] as usize;
        pages[used] = page;
        words[used] = word;
        sizes[2] += 1;
    }
}

impl<'a> Log<'a> {
    pub fn new(words: &'a mut [u32]) -> Log<'a>
        ensures words { result.words.now ≡ words.old }
        ensures lender { result.words.ghost_name ≡ words.entry.ghost_name }
    {
        let layout = Layout::of(words);
        Log { words, layout }
    }

    // The layout, where it has the page.
    fn layout_with(&self, page: u32) -> Result<Layout, StoreFault>
        ensures { MatchResult result (λ l. (layout_of self.now.words.now ≡ Some l) × (page < l.size)) (λ f. (f ≡ fault_at page) × (length (log_pages self.now.words.now) ≤ page)) }
    {
        self.layout
            .filter(|layout| page < layout.size)
            .ok_or(StoreFault { page })
    }
}

impl<'a> Reader for Log<'a> {
    ghost pages = { λ s. log_pages s.words.now };

    ghost few = { λ s. log_few s.words.now };

    fn size(&self) -> u32 {
        self.layout.map_or(0, |layout| layout.size)
    }

    // `latest` says what the trait's promise says, entry by entry.
    fn read(&self, page: u32) -> Result<u32, StoreFault>
        ensures word { result ≡ word_at (log_pages self.now.words.now) page }
        ensures latest { Latest self.now.words.now page result }
    {
        let layout = self.layout_with(page)?;
        Ok(layout.find(self.words, page))
    }
}

impl<'a> Store for Log<'a> {
    ghost use Rattle.pages.specs.LogStore.{log_wrote};

    ghost wrote = { log_wrote };

    fn put(&mut self, page: u32, word: u32) -> Result<(), StoreFault> {
        let layout = self.layout_with(page)?;
        let words = &mut *self.words;
        layout.put(words, page, word);
        Ok(())
    }
}
