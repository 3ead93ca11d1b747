// A port record as bytes: where its words stand, and what bytes are read as. specs/Layout.antt has the same numbers.
#![tactic(auto)]

// The version of the layout and of what its words say.
pub const VERSION: u64 = 1_000_006;

// The words of the header, the clock with the credits, a frame, an instant, a bound and the wire. A queue has a count before its frames.
pub const HEAD_WIDTH: usize = 5;

pub const NUMBERS_WIDTH: usize = 3;

pub const FRAME_WIDTH: usize = 3;

pub const LAST_WIDTH: usize = 2;

pub const BOUND_WIDTH: usize = 1;

pub const WIRE_WIDTH: usize = 1 + FRAME_WIDTH + 1;

// The first word of each part: behind the part before it.
pub const HEAD_START: usize = 0;

pub const ROWS_START: usize = HEAD_START + HEAD_WIDTH;

pub const CLOCK_START: usize = ROWS_START + rowbytes::ROW_WIDTH * table::ROWS;

pub const QUEUEA_START: usize = CLOCK_START + NUMBERS_WIDTH;

pub const QUEUEB_START: usize = QUEUEA_START + 1 + FRAME_WIDTH * table::CLASS_PLACES;

pub const BEST_START: usize = QUEUEB_START + 1 + FRAME_WIDTH * table::CLASS_PLACES;

pub const LAST_START: usize = BEST_START + 1 + FRAME_WIDTH * machine::BEST_PLACES;

pub const BOUNDS_START: usize = LAST_START + LAST_WIDTH * table::ROWS;

pub const WIRE_START: usize = BOUNDS_START + BOUND_WIDTH * table::ROWS;

// The header's words behind the version: the idle slopes of A and of B, the best-effort payload, the row count.
pub const IDLEA_PLACE: usize = HEAD_START + 1;

pub const IDLEB_PLACE: usize = HEAD_START + 2;

pub const PAYLOAD_PLACE: usize = HEAD_START + 3;

pub const COUNT_PLACE: usize = HEAD_START + 4;

// The words and the bytes of a record.
pub const RECORD_WIDTH: usize = WIRE_START + WIRE_WIDTH;

pub const RECORD_SIZE: usize = 8 * RECORD_WIDTH;
