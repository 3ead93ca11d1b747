// The tests of a record's frames, of any content: a row's frame, the best-effort frames that wait, and the frame on the wire.
ghost use Rattle.std.specs.Prelude.{◌≡◌};
ghost use Rattle.table.specs.Rows.{contents};
ghost use Rattle.machine.specs.State.{waiting};
ghost use Rattle.machine.specs.Record.{all_of, on_sending};
ghost use Rattle.frames.specs.Tests.{limits_by, row_test, best_test, sending_test};

use figures::residences::residence;
use figures::{Both, Lane};
use machine::{BEST_MARK, BEST_PLACES, Frame, Queue, Wire};
use table::rows::is_there;
use table::wire::{LEAST_SIZE, size, wire_size};
use table::{Class, ROWS, Row, Table};

// A row's frame by its row and a limit of age.
#[tactic(auto, using(std::proofs::lemmas::Bool::Decides::nat_tests), unfolding(crate::specs::Tests::row_test))]
pub fn row_frame_ok(class: Class, f: Frame, row: Row, limit: u64, clock: u64) -> bool
    ensures { result ≡ row_test class f row limit clock }
{
    class == row.class
        && LEAST_SIZE <= f.size
        && f.size as u64 <= size(row)
        && f.taken <= clock
        && clock - f.taken < limit
}

#[tactic(auto, using(std::proofs::lemmas::Bool::Decides::nat_tests), unfolding(crate::specs::Tests::best_test))]
fn best_frame_ok(f: Frame, most: u64, clock: u64) -> bool
    ensures { result ≡ best_test most clock f }
{
    f.source == BEST_MARK && LEAST_SIZE <= f.size && f.size as u64 <= most && f.taken <= clock
}

// All best-effort frames that wait.
pub fn best_ok(q: Queue<BEST_PLACES>, most: u64, clock: u64) -> bool
    ensures { result ≡ all_of (best_test most clock) (waiting q.count q.frames) }
{
    match q.frames.get(..q.count) {
        Some(frames) => frames.iter().all(|f| best_frame_ok(*f, most, clock)),
        None => false,
    }
}

// The frame on the wire: one of a number in use is judged by its row, with the row's class, any other as a best-effort frame.
fn sending_ok(f: Frame, left: u32, t: Table, lanes: Both<Lane>, clock: u64) -> bool
    ensures { result ≡ sending_test (contents t) (limits_by lanes.a lanes.b t.rows) clock f left }
{
    if left < 1 || f.size < left {
        return false;
    }
    let k = f.source as usize;
    if k < t.count && k < ROWS {
        let row = t.rows[k];
        if is_there(row) {
            return row_frame_ok(row.class, f, row, residence(row, lanes), clock);
        }
    }
    best_frame_ok(f, wire_size(t.header.payload), clock)
}

// What is on the wire.
pub fn wire_ok(w: Wire, t: Table, lanes: Both<Lane>, clock: u64) -> bool
    ensures { result ≡ on_sending (sending_test (contents t) (limits_by lanes.a lanes.b t.rows) clock) w }
{
    match w {
        Wire::Free => true,
        Wire::Sending(f, left) => sending_ok(f, left, t, lanes, clock),
    }
}
