// What a value is built of from a supply (R8.1): the entries that are read, the heads that are put out before elements, the heads of
// containers, and leaves.
#![tactic(auto)]

pub mod front;
pub mod head;
pub mod leaf;
pub mod list;

use value_heads::sparse::Seen;

// The five words of a list's entry.
#[derive(Clone, Copy)]
pub struct Entry {
    pub node: u32,
    pub index: u32,
    pub start: u32,
    pub size: u32,
    pub count: u32,
}

// A container's head that was put out: the index of its first element, and the next byte of the output.
#[derive(Clone, Copy)]
pub struct Opened {
    pub first: usize,
    pub at: usize,
}

// Where what was built ends: the next word of the list and the next byte of the output.
#[derive(Clone, Copy)]
pub struct Built {
    pub word: usize,
    pub at: usize,
}

// Where a row of elements stands: the index of its next element, the next word of the list and the next byte of the output.
#[derive(Clone, Copy)]
pub struct Place {
    pub index: usize,
    pub word: usize,
    pub at: usize,
}

// Where the leaves that a sparse object starts with end: the set of their indexes and how many of those are required, how many elements are
// left, the next word of the list and the next byte of the output.
#[derive(Drop)]
pub struct Gathered {
    pub seen: Seen,
    pub given: usize,
    pub left: usize,
    pub word: usize,
    pub at: usize,
}
