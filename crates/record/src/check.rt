// The record check: whether a record is sound, or broken by one of the clauses.
ghost use Rattle.std.specs.Prelude.{true, ◌≡◌, ◌-◌, ◌*◌, ◌^◌, ◌≤◌, ◌<◌, length, take};
ghost use Rattle.table.specs.declared.Class.{Class};
ghost use Rattle.table.specs.Limits.{D, most_rows, most_slope, most_size};
ghost use Rattle.table.specs.Rows.{contents};
ghost use Rattle.table.specs.Checks.{accepted};
ghost use Rattle.planner.specs.Opening.{standing};
ghost use Rattle.planner.specs.Plan.{lane_of};
ghost use Rattle.machine.specs.State.{view, Places};
ghost use Rattle.machine.specs.Record.{between, not_after, none_after, count_sound, bounds_sound, sound};
ghost use Rattle.frames.specs.Tests.{limits_by};
ghost use Rattle.spacing.specs.Spread.{spread_test};
ghost use Rattle.tally.specs.Rows.{TestBy};
ghost use Rattle.record.specs.Steps.{numbers_test, others_test, instant_if, instants_by, Bounded, rows_test};

use figures::{Both, Lane};
use frames::tests::{best_ok, wire_ok};
use machine::{LAST_CLOCK, Port};
use notes::Order;
use planner::acceptance::classes;
use spacing::rows::all_spread;
use table::rows::is_there;
use table::wire::{D, wire_size};
use table::{Class, ROWS};
use tally::rows::{no_row_frame, order};

// A credit is in range, from −low to high.
fn within(credit: i64, low: u64, high: u64) -> bool
    requires low_bound { low < 2 ^ 62 }
    requires high_bound { high < 2 ^ 62 }
    ensures { result ≡ between low high credit }
{
    -(low as i64) <= credit && credit <= high as i64
}

// A class's credit is in range, −S × L to I × H.
fn credit_ok(credit: i64, l: Lane) -> bool
    requires idle_le_most_slope { l.idle ≤ most_slope }
    requires largest_le_most_size { l.largest ≤ most_size }
    requires blocking_bound { l.blocking ≤ 5 * most_size }
    ensures { result ≡ between ((D - l.idle) * l.largest) (l.idle * l.blocking) credit }
{
    let send = D - l.idle;
    within(credit, send * l.largest, l.idle * l.blocking)
}

// The clock and the credits of a record whose table is accepted.
fn numbers_ok(p: &Port, lanes: Both<Lane>) -> bool
    requires table_value { standing (contents p.now.table) ≡ accepted }
    requires a_value { lanes.a ≡ lane_of Class.A (contents p.now.table) }
    requires b_value { lanes.b ≡ lane_of Class.B (contents p.now.table) }
    ensures { result ≡ numbers_test (view p.now) }
{
    p.clock <= LAST_CLOCK && credit_ok(p.credita, lanes.a) && credit_ok(p.creditb, lanes.b)
}

// The best-effort frames that wait, and the frame on the wire. A queue without a frame is not handed on.
fn others_ok(p: &Port, lanes: Both<Lane>) -> bool
    ensures { result ≡ others_test (limits_by lanes.a lanes.b p.now.table.rows) (view p.now) }
{
    (p.best.count == 0 || best_ok(p.best, wire_size(p.table.header.payload), p.clock))
        && wire_ok(p.wire, p.table, lanes, p.clock)
}

// A row's last instant is not after the clock. An empty number, whose bound is 0, has none.
fn instant_ok(last: Option<u64>, bound: u64, clock: u64) -> bool
    ensures { result ≡ not_after clock (instant_if bound last) }
{
    if bound == 0 {
        return true;
    }
    match last {
        None => true,
        Some(taken) => taken <= clock,
    }
}

// The instants of the first numbers, by their bounds. (By their rows, these would be copied. Stays a loop by number: a zip under a range of rows is no plainer.)
fn instants_ok(last: &[Option<u64>; ROWS], made: &[u64; ROWS], rows: usize, clock: u64) -> bool
    requires rows_le_most_rows { rows ≤ most_rows }
    requires rows_in_bounds { rows ≤ length made.now }
    ensures { result ≡ none_after clock (instants_by (take rows made.now) last.now) }
{
    for i in 0..rows {
        if !instant_ok(last[i], made[i], clock) {
            return false;
        }
    }
    true
}

// The rows in use, whose bounds are lent: no instant after the clock, each frame that waits as its row lets it, and each row's frames as many, as far apart and as new as they may be. Where the frames
// stand in another order than calls leave them, that they are apart is still to be asked.
fn rows_order(p: &Port, lanes: Both<Lane>, made: &[u64; ROWS]) -> Order
    requires places { Places p.now }
    requires count_le_most_rows { p.now.table.count ≤ most_rows }
    requires bounded { Bounded p.now made.now }
    ensures { TestBy (rows_test (limits_by lanes.a lanes.b p.now.table.rows) (view p.now)) (spread_test p.now.wire p.now.a p.now.b p.now.table) result }
{
    if !instants_ok(&p.last, made, p.table.count, p.clock) {
        return Order::Broken;
    }
    if no_row_frame(p.wire, p.a.count, p.b.count) {
        return Order::Rising;
    }
    order(p, lanes)
}

// A record whose table is accepted, with the right row count and bounds, but for the order of its rows' frames.
fn parts_order(p: &Port, lanes: Both<Lane>, made: &[u64; ROWS]) -> Order
    requires places { Places p.now }
    requires table_value { standing (contents p.now.table) ≡ accepted }
    requires a_value { lanes.a ≡ lane_of Class.A (contents p.now.table) }
    requires b_value { lanes.b ≡ lane_of Class.B (contents p.now.table) }
    requires p_value { count_sound (view p.now) ≡ true }
    requires p_value_2 { bounds_sound (view p.now) ≡ true }
    requires bounded { Bounded p.now made.now }
    ensures { TestBy (sound (view p.now)) (spread_test p.now.wire p.now.a p.now.b p.now.table) result }
{
    if !numbers_ok(p, lanes) || !others_ok(p, lanes) {
        return Order::Broken;
    }
    rows_order(p, lanes, made)
}

// That each array of a record is as long as its type says, which a lent record's is too. (Nothing is read, so nothing is copied.)
fn placed(_p: Port)
    ensures { Places _p }
{}

// Whether a record is sound. Its content may be any. No row place behind the row count is looked at. (It is lent: handed over by value it would be copied at each call.)
pub fn is_sound(p: &Port) -> bool
    ensures { result ≡ sound (view p.now) }
{
    placed(*p);
    let t = p.table;
    let mut out = [0u64; ROWS];
    let Ok(made) = classes(&mut out, t, true) else {
        return false;
    };
    let n = t.count;
    let highest = t.rows[n - 1];
    if !is_there(highest) {
        return false;
    }
    let kept = p.bounds;
    if kept[..n] != out[..n] {
        return false;
    }
    match parts_order(p, made, &out) {
        Order::Broken => false,
        Order::Rising => true,
        Order::Mixed => all_spread(p.wire, p.a, p.b, t),
    }
}
