// A port kept as bytes between calls.
#![tactic(auto)]

pub mod saved;
