// The tests of a record's frames.
#![tactic(auto)]

pub mod tests;
