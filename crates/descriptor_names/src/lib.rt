// What names a block and its elements: ids and texts, none of them twice.
#![tactic(auto)]

pub mod id;
pub mod text;
