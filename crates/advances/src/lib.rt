// The advance of a port.
#![tactic(auto)]

pub mod advances;
mod heads;
mod numbers;
mod ports;
