// An effect carried out: queues with a frame more or less, and records.
#![tactic(auto)]

pub mod queues;
pub mod records;
