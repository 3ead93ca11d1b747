// Rows that join and leave a port.
#![tactic(auto)]

pub mod patches;
mod tables;
