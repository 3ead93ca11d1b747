// A call carried out on a record's bytes.
#![tactic(auto)]

pub mod change;
