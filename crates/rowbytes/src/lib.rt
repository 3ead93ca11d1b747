// A row as words: written, tested and read. specs/Row.antt has the same widths.
#![tactic(auto)]

pub mod fits;
pub mod read;
pub mod write;

// The words of a pace and of a row.
pub const PACE_WIDTH: usize = 3;

pub const ROW_WIDTH: usize = 4 + PACE_WIDTH;
