// A port's parts stored over a record's bytes. Words that belong to no part keep what they hold.
// Room is asked for by a `requires`, and why: see recordparts, parts.rt.
ghost use Rattle.std.specs.Prelude.{◌≡◌, ◌+◌, ◌*◌, ◌≤◌, length, take};
ghost use Rattle.words.specs.Words.{stored, spread};
ghost use Rattle.table.specs.Limits.{most_rows};
ghost use Rattle.table.specs.Rows.{rows_of, contents};
ghost use Rattle.machine.specs.State.{waiting, instant_of, instants_of, kept_of};
ghost use Rattle.rowbytes.specs.Row.{row_width, row_words};
ghost use Rattle.recordbytes.specs.Layout.{head_start, rows_start, frame_width, last_width, record_size};
ghost use Rattle.recordbytes.specs.Record.{head_words, marked_words, table_over, queue_over, lasts_over, bounds_over};
ghost use Rattle.recordwrite.specs.Written.{written, patched};

use machine::{Port, Queue};
use recordbytes::{
    BEST_START, BOUND_WIDTH, BOUNDS_START, COUNT_PLACE, FRAME_WIDTH, HEAD_START, IDLEA_PLACE,
    IDLEB_PLACE, LAST_START, LAST_WIDTH, PAYLOAD_PLACE, QUEUEA_START, QUEUEB_START, RECORD_SIZE,
    ROWS_START, VERSION,
};
use recordparts::parts::{put_frame, put_last, put_numbers, put_wire};
use rowbytes::ROW_WIDTH;
use rowbytes::write::{put_row, put_word};
use table::rows::is_there;
use table::{ROWS, Row, Table};

// The version, the header and the row count.
fn put_head(out: &mut [u8], t: Table)
    requires { record_size ≤ length out.old }
    ensures { out.new ≡ stored out.old head_start (head_words (contents t)) }
{
    put_word(out, HEAD_START, VERSION);
    put_word(out, IDLEA_PLACE, t.header.idlea as u64);
    put_word(out, IDLEB_PLACE, t.header.idleb as u64);
    put_word(out, PAYLOAD_PLACE, t.header.payload as u64);
    put_word(out, COUNT_PLACE, t.count as u64);
}

fn put_rows(out: &mut [u8], t: Table)
    requires { record_size ≤ length out.old }
    ensures { out.new ≡ spread row_words row_width rows_start (take most_rows (rows_of t)) out.old }
{
    for (i, row) in t.rows[..t.count.min(ROWS)].iter().enumerate() {
        put_row(out, ROWS_START + ROW_WIDTH * i, *row);
    }
}

fn put_table(out: &mut [u8], t: Table)
    requires { record_size ≤ length out.old }
    ensures { out.new ≡ table_over (contents t) out.old }
{
    put_head(out, t);
    put_rows(out, t);
}

// The count of a queue, and those of its frames that have a place.
fn put_queue<const N: usize>(out: &mut [u8], k: usize, q: Queue<N>)
    requires { 8 * (k + 1 + frame_width * N) ≤ length out.old }
    ensures { out.new ≡ queue_over k N (waiting q.entry.count q.entry.frames) out.old }
{
    put_word(out, k, q.count as u64);
    for i in 0..q.count.min(N) {
        put_frame(out, k + 1 + FRAME_WIDTH * i, q.frames[i]);
    }
}

// The last instant of a number in use. Of an empty number nothing is stored.
fn put_mark(out: &mut [u8], k: usize, row: Row, last: Option<u64>)
    requires { 8 * (k + last_width) ≤ length out.old }
    ensures { out.new ≡ stored out.old k (marked_words (row, instant_of last)) }
{
    if is_there(row) {
        put_last(out, k, last);
    }
}

fn put_lasts(out: &mut [u8], t: Table, lasts: [Option<u64>; ROWS])
    requires { record_size ≤ length out.old }
    ensures { out.new ≡ lasts_over (rows_of t) (instants_of (rows_of t) lasts) out.old }
{
    for i in 0..t.count.min(ROWS) {
        put_mark(out, LAST_START + LAST_WIDTH * i, t.rows[i], lasts[i]);
    }
}

// The bounds of the first `count` numbers.
fn put_bounds(out: &mut [u8], bounds: [u64; ROWS], count: usize)
    requires { record_size ≤ length out.old }
    ensures { out.new ≡ bounds_over (kept_of count bounds) out.old }
{
    for (i, bound) in bounds[..count.min(ROWS)].iter().enumerate() {
        put_word(out, BOUNDS_START + BOUND_WIDTH * i, *bound);
    }
}

// A port's record at the front of a buffer. Where it finds no room nothing is written.
#[tactic(auto, unfolding(crate::specs::Written::written))]
pub fn write_record(out: &mut [u8], p: Port)
    ensures { out.new ≡ written p out.old }
{
    if out.len() < RECORD_SIZE {
        return;
    }
    put_table(out, p.table);
    put_numbers(out, p.clock, p.credita, p.creditb);
    put_queue(out, QUEUEA_START, p.a);
    put_queue(out, QUEUEB_START, p.b);
    put_queue(out, BEST_START, p.best);
    put_lasts(out, p.table, p.last);
    put_bounds(out, p.bounds, p.table.count);
    put_wire(out, p.wire);
}

// Of a port its table, its last instants and its bounds: what a join or a leave changes. Where a record finds no room nothing is written.
#[tactic(auto, unfolding(crate::specs::Written::patched))]
pub fn write_patch(out: &mut [u8], t: Table, last: [Option<u64>; ROWS], bounds: [u64; ROWS])
    ensures { out.new ≡ patched t last bounds out.old }
{
    if out.len() < RECORD_SIZE {
        return;
    }
    put_table(out, t);
    put_lasts(out, t, last);
    put_bounds(out, bounds, t.count);
}
