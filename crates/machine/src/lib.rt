// The types of a port: its record, its frames and wire, and the answers of its calls.
#![tactic(auto)]

pub mod numbers;

use table::{CLASS_PLACES, ROWS};

// The clock's last value.
pub const LAST_CLOCK: u64 = 1_099_511_627_775;

// The most byte-times of an advance.
pub const MOST_STEPS: u64 = 65_535;

// The places of the best-effort queue.
pub const BEST_PLACES: usize = 16;

// The best-effort mark of a frame.
pub const BEST_MARK: u32 = 32;

// The mark of no frame.
pub const NO_MARK: u32 = 33;

// A frame: its row, or 32 for best effort; its wire size; the instant it was taken. (The source stays a number: a record of any content is judged, `is_sound`, and demand 3 names frames by it.)
#[derive(Clone, Copy)]
pub struct Frame {
    pub source: u32,
    pub size: u32,
    pub taken: u64,
}

// The wire: free, or a frame with its bytes left. (As an Option it would lose the names of its states, by which a byte-time is defined, and be no plainer.)
#[derive(Clone, Copy)]
pub enum Wire {
    Free,
    Sending(Frame, u32),
}

// The frames that wait in a queue of N places, first in first out: the first `count` places. (Fixed memory, no heap; and a count above the places is judged, `is_sound`.)
#[derive(Clone, Copy)]
pub struct Queue<const N: usize> {
    pub count: usize,
    pub frames: [Frame; N],
}

// A port. It keeps the bounds of its table's numbers, and of each row the instant of its last taken frame, if it has one. (They stand apart from the table: side by side the two would be copied in each call of a list.)
#[derive(Clone, Copy)]
pub struct Port {
    pub table: table::Table,
    pub clock: u64,
    pub credita: i64,
    pub creditb: i64,
    pub a: Queue<CLASS_PLACES>,
    pub b: Queue<CLASS_PLACES>,
    pub best: Queue<BEST_PLACES>,
    pub last: [Option<u64>; ROWS],
    pub bounds: [u64; ROWS],
    pub wire: Wire,
}

// Why a call is refused. specs/Calls.antt gives each case its number and place.
#[derive(Clone, Copy)]
pub enum Denial {
    Broken,
    NoSuchRow,
    Payload,
    Early,
    BestEffortFull,
    TooManySteps,
    PastLastClock,
    // A join at a number in use, or above 31.
    InUse,
    // A leave with a frame in the port, or a credit that is not 0.
    Busy,
    // A join or a leave that makes a table which is not accepted.
    Misfit(table::Refusal),
}

// What an advance has passed: how many byte-times, and the frame that it reports ended, if it reports one.
#[derive(Clone, Copy)]
pub struct Passed {
    pub count: u64,
    pub ended: Option<Frame>,
}

// What opening or a call gives back: its answer, and the port.
#[derive(Clone, Copy)]
pub struct After<A> {
    pub answer: A,
    pub port: Port,
}

// The one queue that a call changes: its head has left it, or a frame has joined it.
#[derive(Clone, Copy)]
pub enum Change {
    LeftA,
    LeftB,
    LeftBest,
    JoinedA(Frame),
    JoinedB(Frame),
    JoinedBest(Frame),
}

// What an offer or an advance that is not refused comes to: what an advance has passed, the clock, the credits and the wire afterwards, and the queue that it changes, if it changes one.
#[derive(Clone, Copy)]
pub struct Effect {
    pub passed: Option<Passed>,
    pub clock: u64,
    pub credita: i64,
    pub creditb: i64,
    pub wire: Wire,
    pub change: Option<Change>,
}

// What a join or a leave that is not refused comes to: the table and its bounds afterwards, and the number whose last instant is cleared, if one is.
#[derive(Clone, Copy)]
pub struct Patch {
    pub table: table::Table,
    pub bounds: [u64; ROWS],
    pub cleared: Option<usize>,
}
