// Whether bytes are a record: every word of a part fits its field. Words that belong to no part may hold anything.
ghost use Rattle.std.specs.Prelude.{◌≡◌, ◌+◌, ◌*◌, ◌≤◌, ◌<◌};
ghost use Rattle.table.specs.Limits.{most_rows};
ghost use Rattle.rowbytes.specs.Row.{row_width, row_fits};
ghost use Rattle.recordbytes.specs.Layout.{rows_start, wire_start, frame_width, record_width};
ghost use Rattle.recordbytes.specs.Record.{head_fits, frame_fits, last_fits, mark_fits, wire_fits, each, queue_fits, is_record};

use machine::BEST_PLACES;
use recordbytes::{
    BEST_START, COUNT_PLACE, FRAME_WIDTH, HEAD_START, IDLEA_PLACE, IDLEB_PLACE, LAST_START,
    LAST_WIDTH, PAYLOAD_PLACE, QUEUEA_START, QUEUEB_START, RECORD_SIZE, ROWS_START, VERSION,
    WIRE_START,
};
use rowbytes::ROW_WIDTH;
use rowbytes::fits::{U16, U32, row_fits};
use rowbytes::read::row_at;
use table::rows::is_there;
use table::{CLASS_PLACES, ROWS};
use words::words::word;

#[tactic(auto, unfolding(recordbytes::specs::Record::head_fits))]
fn head_fits(s: &[u8]) -> bool
    ensures { result ≡ head_fits s.now }
{
    word(s, HEAD_START) == VERSION
        && word(s, COUNT_PLACE) <= ROWS as u64
        && word(s, IDLEA_PLACE) <= U32
        && word(s, IDLEB_PLACE) <= U32
        && word(s, PAYLOAD_PLACE) <= U16
}

fn frame_fits(s: &[u8], k: usize) -> bool
    requires { k + frame_width ≤ record_width }
    ensures { result ≡ frame_fits s.now k }
{
    word(s, k) <= U32 && word(s, k + 1) <= U32
}

fn last_fits(s: &[u8], k: usize) -> bool
    ensures { result ≡ last_fits s.now k }
{
    word(s, k) <= 1
}

// The mark of number i. An empty number's may hold anything: where it isn't a mark the row decides.
fn mark_fits(s: &[u8], i: usize) -> bool
    requires { i < most_rows }
    ensures { result ≡ mark_fits s.now i }
{
    last_fits(s, LAST_START + LAST_WIDTH * i) || !is_there(row_at(s, ROWS_START + ROW_WIDTH * i))
}

#[tactic(auto, unfolding(recordbytes::specs::Record::wire_fits))]
fn wire_fits(s: &[u8]) -> bool
    ensures { result ≡ wire_fits s.now wire_start }
{
    let mark = word(s, WIRE_START);
    if mark == 1 {
        frame_fits(s, WIRE_START + 1) && word(s, WIRE_START + 1 + FRAME_WIDTH) <= U32
    } else {
        mark == 0
    }
}

fn rows_fit(s: &[u8], n: usize) -> bool
    requires { n ≤ most_rows }
    ensures { result ≡ each (row_fits s.now) row_width rows_start n }
{
    (0..n).all(|i| row_fits(s, ROWS_START + ROW_WIDTH * i))
}

fn frames_fit(s: &[u8], k: usize, n: usize) -> bool
    requires { k + frame_width * n ≤ record_width }
    ensures { result ≡ each (frame_fits s.now) frame_width k n }
{
    (0..n).all(|i| frame_fits(s, k + FRAME_WIDTH * i))
}

fn lasts_fit(s: &[u8], n: usize) -> bool
    requires { n ≤ most_rows }
    ensures { result ≡ each (mark_fits s.now) 1 0 n }
{
    (0..n).all(|i| mark_fits(s, i))
}

#[tactic(auto, unfolding(recordbytes::specs::Record::queue_fits))]
fn queue_fits(s: &[u8], k: usize, places: usize) -> bool
    requires { k + 1 + frame_width * places ≤ record_width }
    ensures { result ≡ queue_fits s.now k places }
{
    let n = word(s, k);
    n <= places as u64 && frames_fit(s, k + 1, n as usize)
}

#[tactic(auto, unfolding(recordbytes::specs::Record::is_record))]
pub fn is_record(s: &[u8]) -> bool
    ensures { result ≡ is_record s.now }
{
    if s.len() < RECORD_SIZE || !head_fits(s) {
        return false;
    }
    let n = word(s, COUNT_PLACE) as usize;
    rows_fit(s, n)
        && queue_fits(s, QUEUEA_START, CLASS_PLACES)
        && queue_fits(s, QUEUEB_START, CLASS_PLACES)
        && queue_fits(s, BEST_START, BEST_PLACES)
        && lasts_fit(s, n)
        && wire_fits(s)
}
