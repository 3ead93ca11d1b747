// Writing a table file: bytes from a table.
#![tactic(auto)]

pub mod write;
