// Port records written as bytes.
#![tactic(auto)]

pub mod write;
