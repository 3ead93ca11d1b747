// The lines that the programs read, and the texts that they print.
#![tactic(auto)]

pub mod lines;
pub mod text;
