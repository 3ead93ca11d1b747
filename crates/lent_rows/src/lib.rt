// The bounds of rows that come as a lent list.
#![tactic(auto)]

pub mod rows;
