// The frames of a record noted with their rows, those that wait held to them: how many a row has, and when the newest was taken.
ghost use Rattle.std.specs.Prelude.{◌≡◌, [], ◌+◌, ◌≤◌, ◌<◌, max, length, get_or, set};
ghost use Rattle.table.specs.declared.Class.{Class};
ghost use Rattle.table.specs.Limits.{most_rows};
ghost use Rattle.table.specs.Wire.{period_of};
ghost use Rattle.machine.specs.Limits.{class_places};
ghost use Rattle.machine.specs.Record.{sending};
ghost use Rattle.notes.specs.Notes.{newests, counts, in_turn, Notes, Few, NotedBy};
ghost use Rattle.notes.specs.Steps.{QueueNoted};

use crate::{Noted, Order};
use figures::residences::residence;
use figures::{Both, Lane};
use frames::tests::row_frame_ok;
use machine::{Frame, Port, Wire};
use table::rows::is_there;
use table::wire::period;
use table::{Class, ROWS, Row, Table};

// The frame comes a period or more after the newest of its row before it, or is the first.
fn in_turn(before: Noted, taken: u64, row: Row) -> bool
    ensures { result ≡ in_turn (period_of row) before.count before.newest taken }
{
    before.count == 0 || (before.newest <= taken && period(row) <= taken - before.newest)
}

// One frame more of row k; whether it comes in turn.
fn note(noted: &mut [Noted; ROWS], k: usize, taken: u64, row: Row) -> bool
    requires k_lt_most_rows { k < most_rows }
    requires k_bound { get_or (counts noted.old) k 0 ≤ 255 }
    ensures turn { result ≡ in_turn (period_of row) (get_or (counts noted.old) k 0) (get_or (newests noted.old) k 0) taken }
    ensures newest { newests noted.new ≡ set (newests noted.old) k (max (get_or (newests noted.old) k 0) taken) }
    ensures counts { counts noted.new ≡ set (counts noted.old) k (get_or (counts noted.old) k 0 + 1) }
{
    let before = noted[k];
    noted[k] = Noted {
        newest: before.newest.max(taken),
        count: before.count + 1,
    };
    in_turn(before, taken, row)
}

// The frame on the wire, if there is one. A source of 32 or more is not noted.
fn note_wire(noted: &mut [Noted; ROWS], w: Wire)
    requires { Notes [] (newests noted.old) (counts noted.old) }
    ensures { Notes (sending w) (newests noted.new) (counts noted.new) }
{
    if let Wire::Sending(f, _) = w {
        let k = f.source as usize;
        if k < ROWS {
            noted[k] = Noted {
                newest: f.taken,
                count: 1,
            };
        }
    }
}

// The frames that wait in a class's queue.
fn note_queue(
    noted: &mut [Noted; ROWS],
    class: Class,
    frames: &[Frame],
    t: Table,
    lanes: Both<Lane>,
    clock: u64,
) -> Order
    requires few { Few 65 (counts noted.old) }
    requires length_le_class_places { length frames.now ≤ class_places }
    ensures { QueueNoted class frames.now t lanes.a lanes.b clock noted.old noted.new result }
{
    let mut rising = true;
    for f in frames {
        let k = f.source as usize;
        if t.count <= k || ROWS <= k {
            return Order::Broken;
        }
        let row = t.rows[k];
        if !is_there(row) {
            return Order::Broken;
        }
        if !row_frame_ok(class, *f, row, residence(row, lanes), clock) {
            return Order::Broken;
        }
        if !note(noted, k, f.taken, row) {
            rising = false;
        }
    }
    if rising {
        return Order::Rising;
    }
    Order::Mixed
}

// The frame on the wire, and then those that wait, A's and B's.
pub fn note_all(noted: &mut [Noted; ROWS], p: &Port, lanes: Both<Lane>) -> Order
    requires notes { Notes [] (newests noted.old) (counts noted.old) }
    requires count_le_class_places { (p.now.a.count ≤ class_places) × (p.now.b.count ≤ class_places) }
    ensures { NotedBy p.now.wire p.now.a p.now.b p.now.table lanes.a lanes.b p.now.clock (newests noted.new) (counts noted.new) result }
{
    note_wire(noted, p.wire);
    let first = note_queue(
        noted,
        Class::A,
        &p.a.frames[..p.a.count],
        p.table,
        lanes,
        p.clock,
    );
    if first == Order::Broken {
        return Order::Broken;
    }
    let second = note_queue(
        noted,
        Class::B,
        &p.b.frames[..p.b.count],
        p.table,
        lanes,
        p.clock,
    );
    if second == Order::Rising {
        first
    } else {
        second
    }
}
