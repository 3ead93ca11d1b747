// Reading a table file: a table from bytes.
#![tactic(auto)]

pub mod read;
