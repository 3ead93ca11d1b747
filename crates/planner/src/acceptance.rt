// The checks of opening in their order, with the figures that they work out.
ghost use Rattle.std.specs.Prelude.{◌≡◌, ◌≤◌, length};
ghost use Rattle.table.specs.Limits.{most_rows};
ghost use Rattle.table.specs.Rows.{contents};
ghost use Rattle.table.specs.Checks.{accepted, passing};
ghost use Rattle.table.specs.Ranges.{Every};
ghost use Rattle.figures.specs.Steps.{Ready};
ghost use Rattle.planner.specs.Opening.{ranged_by};
ghost use Rattle.planner.specs.Plan.{Classed, BoundsIn};
ghost use Rattle.planner.specs.Steps.{Summed, Passed, Lanes, JudgementOf, timely_by, filled_by};

use crate::sums::summed;
use figures::lanes::{lane_a, lane_b, slopes_ok};
use figures::residences::{bound_of, most_of, row_time};
use figures::{Both, Figures, Lane};
use table::ranges::{HEADER_PLACE, header_ok};
use table::{CLASS_PLACES, Class, ROWS, Refusal, Row, Table};

// The rows' bounds held against their deadlines, and their residences counted against their periods, up to the first row that is late. The bounds come into the places that
// are lent.
fn judged(out: &mut [u64; ROWS], rows: &[Row], lanes: Both<Lane>) -> Result<Both<u64>, Refusal>
    requires few { length rows.now ≤ most_rows }
    requires ready { Every (λ r. Ready r lanes.a lanes.b) rows.now }
    ensures judgement_of { JudgementOf lanes.a lanes.b rows.now result }
    ensures bounds { out.new ≡ filled_by lanes.a lanes.b rows.now (passing (timely_by lanes.a lanes.b) rows.now) out.old }
{
    let mut ofa: u64 = 0;
    let mut ofb: u64 = 0;
    for (i, row) in rows.iter().enumerate() {
        let residence = row_time(*row, lanes);
        let bound = bound_of(residence);
        if u64::from(row.deadline) < bound {
            return Err(Refusal::Deadline(i));
        }
        ofa += most_of(Class::A, *row, residence);
        ofb += most_of(Class::B, *row, residence);
        out[i] = bound;
    }
    Ok(Both { a: ofa, b: ofb })
}

// The classes of a table that only a late row or a class with too many frames can still have refused.
fn timely_classes(
    out: &mut [u64; ROWS],
    t: &Table,
    gaps: bool,
    made: Both<Lane>,
) -> Result<Both<Lane>, Refusal>
    requires places { length t.now.rows ≡ most_rows }
    requires lanes { Lanes (contents t.now) made.a made.b }
    requires passed { Passed gaps (contents t.now) }
    ensures classed { Classed gaps (contents t.now) result }
    ensures bounds { BoundsIn gaps (contents t.now) out.old out.new }
{
    let found = judged(out, &t.rows[..t.count], made)?;
    if found.a > CLASS_PLACES as u64 {
        return Err(Refusal::Frames(Class::A));
    }
    if found.b > CLASS_PLACES as u64 {
        return Err(Refusal::Frames(Class::B));
    }
    Ok(made)
}

// The classes of a table in range, by their figures.
fn fair_classes(
    out: &mut [u64; ROWS],
    t: &Table,
    gaps: bool,
    sums: Both<Figures>,
) -> Result<Both<Lane>, Refusal>
    requires places { length t.now.rows ≡ most_rows }
    requires summed { Summed (contents t.now) sums.a sums.b }
    requires t_value { ranged_by gaps (contents t.now) ≡ accepted }
    ensures classed { Classed gaps (contents t.now) result }
    ensures bounds { BoundsIn gaps (contents t.now) out.old out.new }
{
    let h = t.header;
    if !slopes_ok(h, sums.a, sums.b) {
        return Err(Refusal::Slopes);
    }
    if u64::from(h.idlea) < sums.a.shares {
        return Err(Refusal::Shares(Class::A));
    }
    if u64::from(h.idleb) < sums.b.shares {
        return Err(Refusal::Shares(Class::B));
    }
    let made = Both {
        a: lane_a(h, sums.a, sums.b),
        b: lane_b(h, sums.a, sums.b),
    };
    timely_classes(out, t, gaps, made)
}

// An accepted table's classes and its bounds, which come into the places that are lent, or why it is refused, with its empty numbers passed over or not: one pass over the
// rows for their ranges and the classes' sums, and one for what these make of each row.
pub fn classes(out: &mut [u64; ROWS], t: Table, gaps: bool) -> Result<Both<Lane>, Refusal>
    ensures classed { Classed gaps (contents t) result }
    ensures bounds { BoundsIn gaps (contents t) out.old out.new }
{
    let n = t.count;
    if !(1..=ROWS).contains(&n) {
        return Err(Refusal::RowCount);
    }
    if !header_ok(t.header) {
        return Err(Refusal::Value(HEADER_PLACE));
    }
    let sums = summed(&t.rows[..n], gaps)?;
    fair_classes(out, &t, gaps, sums)
}
