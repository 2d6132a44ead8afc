// The check of well-formed text with a faster step over plain bytes, and with the letters of one row of the table taken together (L5). It
// stands beside the check of crate `wire`, which is the one that all calls use.
#![tactic(auto)]

pub mod letters;
pub mod plain;
