// A list with fixed room, copied by value: a controller has no heap to run out of.
ghost use Rattle.std.specs.Prelude.{◌≡◌, ◌≤◌, [], length, slice_set, OnErr};
ghost use Rattle.std.specs.List.{slice_get};
ghost use Rattle.basics.specs.Trail.{items_of, pushed, push_told};

// Why an item is not taken in: there is no room left.
#[derive(Clone, Copy, PartialEq, Eq, Debug)]
pub struct Full;

// At most `N` items, with their number beside them: a controller has no heap, and a copy of a record has no other form. What
// lies past them is never spoken of. On a generic list an invariant or a model would forbid the derived copy, so no call
// looks past `N`.
#[derive(Clone, Copy, Debug)]
pub struct Trail<T, const N: usize> {
    items: [T; N],
    len: usize,
}

impl<T: Copy, const N: usize> Trail<T, N> {
    // An empty list. `unused` fills the room.
    pub fn new(unused: T) -> Trail<T, N>
        ensures { items_of result ≡ [] }
    {
        Trail {
            items: [unused; N],
            len: 0,
        }
    }

    pub fn as_slice(&self) -> &[T]
        ensures items { result.now ≡ items_of self.now }
        ensures few { length result.now ≤ N }
    {
        &self.items[..self.len.min(N)]
    }

    pub fn len(&self) -> usize
        ensures count { result ≡ length (items_of self.now) }
        ensures few { result ≤ N }
    {
        self.as_slice().len()
    }

    pub fn get(&self, index: usize) -> Option<T>
        ensures { result ≡ slice_get (items_of self.now) index }
    {
        self.as_slice().get(index).copied()
    }

    // One more item at the end; nothing changes where there is no room.
    pub fn push(&mut self, item: T) -> Result<(), Full>
        ensures told { result ≡ push_told N (items_of self.old) }
        ensures items { items_of self.new ≡ pushed N (items_of self.old) item }
        ensures declined { OnErr result (self.new ≡ self.old) }
    {
        let at = self.len();
        if at == N {
            return Err(Full);
        }
        self.items[at] = item;
        self.len = at + 1;
        Ok(())
    }

    // Another item in the place of the one at `index`; past the end nothing changes.
    pub fn set(&mut self, index: usize, item: T)
        ensures { items_of self.new ≡ slice_set (items_of self.old) index item }
    {
        if index < self.len() {
            self.items[index] = item;
        }
    }
}
