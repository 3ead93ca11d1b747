// The words of a port's parts.
#![tactic(auto)]

pub mod parts;
