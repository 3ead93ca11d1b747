// The port that a record's bytes name.
ghost use Rattle.std.specs.Prelude.{◌≡◌, true, cond, map, ◌+◌, ◌*◌, ◌≤◌, ◌<◌, length, None};
ghost use Rattle.table.specs.Limits.{most_rows};
ghost use Rattle.table.specs.Rows.{no_row, is_there};
ghost use Rattle.machine.specs.State.{never, instants_for, zero_frame, placed, last_of};
ghost use Rattle.words.specs.Words.{word_at, gathered};
ghost use Rattle.rowbytes.specs.Row.{row_width, row_at};
ghost use Rattle.recordbytes.specs.Layout.{rows_start, last_start, bounds_start, wire_start, count_place, frame_width, last_width, bound_width, record_width};
ghost use Rattle.recordbytes.specs.Record.{frame_at, instant_at, queue_at, wire_at, state_of, is_record};
ghost use Rattle.recordbytes.specs.Port.{table_from, port_from, read_record};

use crate::fits::is_record;
use machine::{Frame, Port, Queue, Wire};
use recordbytes::{
    BEST_START, BOUND_WIDTH, BOUNDS_START, CLOCK_START, COUNT_PLACE, FRAME_WIDTH, IDLEA_PLACE,
    IDLEB_PLACE, LAST_START, LAST_WIDTH, PAYLOAD_PLACE, QUEUEA_START, QUEUEB_START, ROWS_START,
    WIRE_START,
};
use rowbytes::ROW_WIDTH;
use rowbytes::read::{row_at, u16_at, u32_at};
use table::rows::{is_there, no_row};
use table::{Header, ROWS, Row, Table};
use words::words::word;

pub fn frame_at(s: &[u8], k: usize) -> Frame
    requires { k + frame_width ≤ record_width }
    ensures { result ≡ frame_at s.now k }
{
    Frame {
        source: u32_at(s, k),
        size: u32_at(s, k + 1),
        taken: word(s, k + 2),
    }
}

// A row's last instant, if it has one.
fn last_at(s: &[u8], k: usize) -> Option<u64>
    requires { k + last_width ≤ record_width }
    ensures { result ≡ last_of (instant_at s.now k) }
{
    (word(s, k) == 1).then_some(word(s, k + 1))
}

// That of number i. An empty number has none, whatever its words hold.
fn mark_at(s: &[u8], i: usize) -> Option<u64>
    requires { i < most_rows }
    ensures { result ≡ last_of (cond (is_there (row_at s.now (rows_start + row_width * i))) (instant_at s.now (last_start + last_width * i)) never) }
{
    let row = row_at(s, ROWS_START + ROW_WIDTH * i);
    if is_there(row) {
        last_at(s, LAST_START + LAST_WIDTH * i)
    } else {
        None
    }
}

// What a place holds that belongs to no part.
fn zero_frame() -> Frame
    ensures { result ≡ zero_frame }
{
    Frame {
        source: 0,
        size: 0,
        taken: 0,
    }
}

// The rows of a table, zeros behind the last one. (That n is at most the row places stays a `requires`, here and below: each asks it for the places of one array.)
// One generic for this, `frames_at`, `lasts_at` and `bounds_at`, by a closure and `F.post`: tried, and `invariant-loop-i` was refused; each would also need a lemma from single places to `placed`.
fn rows_at(s: &[u8], n: usize) -> [Row; ROWS]
    requires { n ≤ most_rows }
    ensures { result ≡ placed most_rows no_row (gathered (row_at s.now) row_width rows_start n) }
{
    let mut rows = [no_row(); ROWS];
    for i in 0..n {
        rows[i] = row_at(s, ROWS_START + ROW_WIDTH * i);
    }
    rows
}

fn table_at(s: &[u8]) -> Table
    requires { word_at s.now count_place ≤ most_rows }
    ensures { result ≡ table_from (state_of s.now).table }
{
    let count = word(s, COUNT_PLACE) as usize;
    Table {
        header: Header {
            idlea: u32_at(s, IDLEA_PLACE),
            idleb: u32_at(s, IDLEB_PLACE),
            payload: u16_at(s, PAYLOAD_PLACE),
        },
        count,
        rows: rows_at(s, count),
    }
}

// The frames of a queue of N places that wait, zeros behind the last one.
fn frames_at<const N: usize>(s: &[u8], k: usize, n: usize) -> [Frame; N]
    requires n_le_places { n ≤ N }
    requires n_bound { k + frame_width * n ≤ record_width }
    ensures { result ≡ placed N zero_frame (gathered (frame_at s.now) frame_width k n) }
{
    let mut frames = [zero_frame(); N];
    for i in 0..n {
        frames[i] = frame_at(s, k + FRAME_WIDTH * i);
    }
    frames
}

fn queue_at<const N: usize>(s: &[u8], k: usize) -> Queue<N>
    requires k_bound { word_at s.now k ≤ N }
    requires places_bound { k + 1 + frame_width * N ≤ record_width }
    ensures { result ≡ record { count = length (queue_at s.now k); frames = placed N zero_frame (queue_at s.now k) } }
{
    let count = word(s, k) as usize;
    let frames = frames_at(s, k + 1, count);
    Queue { count, frames }
}

// The last instants of the first n numbers, and none behind them.
fn lasts_at(s: &[u8], n: usize) -> [Option<u64>; ROWS]
    requires { n ≤ most_rows }
    ensures { result ≡ placed most_rows None (map last_of (instants_for (gathered (row_at s.now) row_width rows_start n) (gathered (instant_at s.now) last_width last_start n))) }
{
    let mut lasts: [Option<u64>; ROWS] = [None; ROWS];
    for i in 0..n {
        lasts[i] = mark_at(s, i);
    }
    lasts
}

// The bounds of the first n numbers, zeros behind them.
fn bounds_at(s: &[u8], n: usize) -> [u64; ROWS]
    requires { n ≤ most_rows }
    ensures { result ≡ placed most_rows 0 (gathered (word_at s.now) bound_width bounds_start n) }
{
    let mut bounds: [u64; ROWS] = [0; ROWS];
    for i in 0..n {
        bounds[i] = word(s, BOUNDS_START + BOUND_WIDTH * i);
    }
    bounds
}

#[tactic(auto, unfolding(recordbytes::specs::Record::wire_at))]
fn wire_at(s: &[u8]) -> Wire
    ensures { result ≡ wire_at s.now wire_start }
{
    if word(s, WIRE_START) == 1 {
        Wire::Sending(
            frame_at(s, WIRE_START + 1),
            u32_at(s, WIRE_START + 1 + FRAME_WIDTH),
        )
    } else {
        Wire::Free
    }
}

// The port that a record names. A credit is in two's complement.
fn port_of(s: &[u8]) -> Port
    requires { is_record s.now ≡ true }
    ensures { result ≡ port_from (state_of s.now) }
{
    let table = table_at(s);
    Port {
        table,
        bounds: bounds_at(s, table.count),
        clock: word(s, CLOCK_START),
        credita: word(s, CLOCK_START + 1).cast_signed(),
        creditb: word(s, CLOCK_START + 2).cast_signed(),
        a: queue_at(s, QUEUEA_START),
        b: queue_at(s, QUEUEB_START),
        best: queue_at(s, BEST_START),
        last: lasts_at(s, table.count),
        wire: wire_at(s),
    }
}

// What bytes are read as: at least as many as a record's, whose words fit, are a record.
#[tactic(auto, unfolding(recordbytes::specs::Port::read_record))]
pub fn read_record(bytes: &[u8]) -> Option<Port>
    ensures { result ≡ read_record bytes.now }
{
    if !is_record(bytes) {
        return None;
    }
    Some(port_of(bytes))
}
