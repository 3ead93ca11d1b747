// How far apart the frames of each row in a record were taken, in whichever order they stand.
#![tactic(auto)]

pub mod rows;

// The most frames in a record: both class queues, and the wire.
const MOST_FRAMES: usize = 2 * table::CLASS_PLACES + 1;

// Instants: the first `count` places. (An array with a count: fixed memory, no heap.)
#[derive(Clone, Copy)]
struct Instants {
    count: usize,
    taken: [u64; MOST_FRAMES],
}
