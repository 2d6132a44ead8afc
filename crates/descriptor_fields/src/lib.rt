// The fields of a descriptor's blocks, each by itself: which fields a block has, their sizes, and the rules of numbers.
#![tactic(auto)]

pub mod earlier;
pub mod kinds;
pub mod number;

// What is kept of a block while its fields are read: where the next field starts, how many items are left of a run, whether the shape
// is free, the format where it is known, the height, the last cardinality, where the last name starts, and how many elements there are.
#[derive(Clone, Copy)]
pub struct Draft {
    pub at: usize,
    pub left: u32,
    pub free: u32,
    pub format: Option<u32>,
    pub height: u32,
    pub card: u32,
    pub name: u32,
    pub count: usize,
}

// A field that is read: its block's tag, its kind, and what was kept of the block before it.
#[derive(Clone, Copy)]
pub struct Field {
    pub tag: u32,
    pub code: u8,
    pub x: Draft,
}
