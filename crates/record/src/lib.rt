// The record check: whether a port record, of any content, is sound.
#![tactic(auto)]

pub mod check;
