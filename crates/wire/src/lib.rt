// Numbers, text, words and copies of bytes, as EdgeDB's messages and values have them.
#![tactic(auto)]

pub mod be;
pub mod copy;
pub mod text;
pub mod words;
