// Opening a port, and offers to it.
#![tactic(auto)]

pub mod offers;
pub mod opening;
