// A port's table: its types, the wire sizes, periods and shares of its rows, and which values are in range.
#![tactic(auto)]

pub mod numbers;
pub mod quotient;
pub mod ranges;
pub mod rows;
pub mod wire;

// The places of a table: the most rows that it has.
pub const ROWS: usize = 32;

// The places of a class queue: the most frames that a class's rows together may have in the port.
pub const CLASS_PLACES: usize = 64;

// A shaped class.
#[derive(Clone, Copy, PartialEq, Eq)]
pub enum Class {
    A,
    B,
}

// How often a stream sends: its period in byte-times, or the samples of a frame and their rate in Hz. (In this order a row takes 16 bytes, with the rate first 20.)
#[derive(Clone, Copy)]
pub enum Pace {
    Period(u32),
    Rated(u8, u32),
}

// A stream: its class, whether its frames carry a redundancy tag, payload in bytes, pace, and deadline in byte-times.
#[derive(Clone, Copy)]
pub struct Row {
    pub class: Class,
    pub tagged: bool,
    pub payload: u16,
    pub pace: Pace,
    pub deadline: u32,
}

// The idle slopes of A and B in millionths of the port rate, and the best-effort payload.
#[derive(Clone, Copy)]
pub struct Header {
    pub idlea: u32,
    pub idleb: u32,
    pub payload: u16,
}

// A port's table: its header, its row count, which is one above the highest number in use, and the places. (Of any content, until it is checked; an array with a count, since memory is fixed and a count above the places is judged too.)
#[derive(Clone, Copy)]
pub struct Table {
    pub header: Header,
    pub count: usize,
    pub rows: [Row; ROWS],
}

// Why a table is refused. specs/Checks.antt gives each case its number and place.
#[derive(Clone, Copy)]
pub enum Refusal {
    RowCount,
    // The row, or 32 for a header value. (Stays a number: its number and place fix a refusal, `refusal_said`, proofs/Laws.antt.)
    Value(usize),
    Slopes,
    Shares(Class),
    Deadline(usize),
    Frames(Class),
}
