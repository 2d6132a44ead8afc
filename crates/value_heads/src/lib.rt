// The heads of containers and of their elements, read from a container's own bytes.
#![tactic(auto)]

pub mod element;
pub mod parts;
pub mod sparse;
