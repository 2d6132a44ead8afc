// Descriptors (R3): reading their blocks, field by field.
#![tactic(auto)]

pub mod block;
pub mod field;
