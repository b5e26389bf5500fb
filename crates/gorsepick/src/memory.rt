// The memory of the store that a scenario gives.
// How the words of a memory are to be read.
#[derive(Clone, Copy, PartialEq, Eq)]
pub(crate) enum Kind {
    Flat,
    Log,
}

#[derive(Clone, PartialEq, Eq, Drop)]
pub(crate) struct Memory {
    pub(crate) kind: Kind,
    pub(crate) words: Vec<u32>,
}
