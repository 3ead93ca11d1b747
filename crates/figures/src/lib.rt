// What rows add to the figures of their class, what the figures make of a class, and what a class makes of a row.
#![tactic(auto)]

pub mod lanes;
pub mod residences;
pub mod sums;

// The rows of one class taken together: how many, the largest wire size, the sum of wire sizes, the sum of shares.
#[derive(Clone, Copy)]
pub struct Figures {
    pub members: u64,
    pub largest: u64,
    pub total: u64,
    pub shares: u64,
}

// What a class's residences are made of: idle slope, largest wire size, sum of wire sizes, blocking.
#[derive(Clone, Copy)]
pub struct Lane {
    pub idle: u64,
    pub largest: u64,
    pub total: u64,
    pub blocking: u64,
}

// What each of the two classes has.
#[derive(Clone, Copy)]
pub struct Both<T> {
    pub a: T,
    pub b: T,
}
