// The sheet of a table file, as text.
#![tactic(auto)]

pub mod sheet;
