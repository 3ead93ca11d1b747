// The frames of every row in a record.
ghost use Rattle.std.specs.Prelude.{true, cond, ◌≡◌, ◌≤◌, length};
ghost use Rattle.table.specs.Limits.{most_rows};
ghost use Rattle.table.specs.Wire.{period_of};
ghost use Rattle.table.specs.Rows.{is_there};
ghost use Rattle.machine.specs.State.{instant_of};
ghost use Rattle.machine.specs.Record.{up_to};
ghost use Rattle.frames.specs.Tests.{limits_by};
ghost use Rattle.spacing.specs.Spread.{spread_test};
ghost use Rattle.notes.specs.Notes.{newests, counts, Few};
ghost use Rattle.tally.specs.Rows.{no_row_frames, row_frames_test, TestBy};
ghost use Rattle.tally.specs.Steps.{count_test, counts_test};

use figures::residences::residence;
use figures::{Both, Lane};
use machine::{Port, Wire};
use notes::noting::note_all;
use notes::{Noted, Order};
use table::rows::is_there;
use table::wire::period;
use table::{CLASS_PLACES, ROWS, Row, Table};

// A row has no more frames than its limit of age has periods, and the newest was taken at its last instant. An empty number is not asked.
fn count_ok(noted: Noted, last: Option<u64>, limit: u64, row: Row) -> bool
    requires { noted.count ≤ 255 }
    ensures { result ≡ cond (is_there row) (count_test noted.count noted.newest (instant_of last) limit (period_of row)) true }
{
    if !is_there(row) {
        return true;
    }
    if noted.count == 0 {
        return true;
    }
    let more = noted.count - 1;
    if limit <= more * period(row) {
        return false;
    }
    match last {
        None => false,
        Some(taken) => taken == noted.newest,
    }
}

// No row's frame waits in a class queue or is on the wire: then there is nothing to ask.
pub fn no_row_frame(w: Wire, a: usize, b: usize) -> bool
    ensures { result ≡ no_row_frames w a b }
{
    if 0 < a || 0 < b {
        return false;
    }
    match w {
        Wire::Free => true,
        Wire::Sending(f, _) => ROWS <= f.source as usize,
    }
}

// Count and newest of each row in use.
fn counts_ok(noted: &[Noted; ROWS], t: Table, lanes: Both<Lane>, last: &[Option<u64>; ROWS]) -> bool
    requires count_le_most_rows { t.count ≤ most_rows }
    requires few { Few 255 (counts noted.now) }
    ensures counted { result ≡ up_to t.count (counts_test t lanes.a lanes.b last.now (newests noted.now) (counts noted.now)) }
    ensures places { length t.rows ≡ most_rows }
{
    for (i, row) in t.rows[..t.count].iter().enumerate() {
        let limit = residence(*row, lanes);
        if !count_ok(noted[i], last[i], limit, *row) {
            return false;
        }
    }
    true
}

// The frames of the rows: the queues', each held to its row, and each row's count and newest. Where each came a period after those of its row before it, no two are too near;
// if not, that is still to be asked.
pub fn order(p: &Port, lanes: Both<Lane>) -> Order
    ensures { TestBy (row_frames_test p.now.wire p.now.a p.now.b p.now.table (limits_by lanes.a lanes.b p.now.table.rows) p.now.last p.now.clock) (spread_test p.now.wire p.now.a p.now.b p.now.table) result }
{
    if ROWS < p.table.count || CLASS_PLACES < p.a.count || CLASS_PLACES < p.b.count {
        return Order::Broken;
    }
    let none = Noted {
        newest: 0,
        count: 0,
    };
    let mut noted = [none; ROWS];
    let found = note_all(&mut noted, p, lanes);
    if found == Order::Broken || !counts_ok(&noted, p.table, lanes, &p.last) {
        return Order::Broken;
    }
    found
}
