// Words of 64 bits in byte slices.
#![tactic(auto)]

pub mod words;
