// A call that takes a port record where it lies.
#![tactic(auto)]

pub mod carried;
