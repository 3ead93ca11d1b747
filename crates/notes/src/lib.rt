// The frames of the rows in a record, each held to its row and noted there.
#![tactic(auto)]

pub mod noting;

// What a record's frames of rows show: one that may not be there, each taken a period or more after those of its row before it, or another order.
#[derive(Clone, Copy, PartialEq, Eq)]
pub enum Order {
    Broken,
    Rising,
    Mixed,
}

// What is noted of a row: when its newest frame was taken, and how many it has.
#[derive(Clone, Copy)]
pub struct Noted {
    pub newest: u64,
    pub count: u64,
}
