// Plans (R4.1 to R4.3): their words, reading the nodes of a well-formed one, and how many elements of its sparse objects are required.
// Whether a plan is well formed is told by the crate plan_check.
#![tactic(auto)]

pub mod needs;
pub mod node;
pub mod words;
