// Whether a table's values are in range: refusals 3 and 5.
ghost use Rattle.std.specs.Prelude.{◌≡◌, not, position};
ghost use Rattle.table.specs.Rows.{contents};
ghost use Rattle.table.specs.Checks.{outcome_of};
ghost use Rattle.table.specs.Ranges.{header_ok, period_ok, rate_ok, samples_ok, pace_ok, deadline_ok, row_ok, ranged};

use crate::{Header, Pace, ROWS, Refusal, Row, Table};

// The place of a header value where rows are places.
pub const HEADER_PLACE: usize = 32;

// The largest idle slope of a class, and of both together.
pub const MOST_SLOPE: u32 = 750_000;

// The largest payload of a frame.
pub const MOST_PAYLOAD: u16 = 1500;

// The shortest and the longest period of a row.
const LEAST_PERIOD: u32 = 84;

const MOST_PERIOD: u32 = 1_000_000_000;

// The longest deadline of a row.
const MOST_DEADLINE: u32 = 1_000_000_000;

// The lowest and the highest sample rate.
const LEAST_RATE: u32 = 1000;

const MOST_RATE: u32 = 200_000;

#[tactic(auto, unfolding(crate::specs::Ranges::header_ok))]
pub fn header_ok(h: Header) -> bool
    ensures { result ≡ header_ok h }
{
    h.idlea <= MOST_SLOPE && h.idleb <= MOST_SLOPE && h.payload <= MOST_PAYLOAD
}

pub fn period_ok(p: u32) -> bool
    ensures { result ≡ period_ok p }
{
    (LEAST_PERIOD..=MOST_PERIOD).contains(&p)
}

pub fn rate_ok(rate: u32) -> bool
    ensures { result ≡ rate_ok rate }
{
    (LEAST_RATE..=MOST_RATE).contains(&rate)
}

// The field holds no more than 255.
pub fn samples_ok(samples: u8) -> bool
    ensures { result ≡ samples_ok samples }
{
    1 <= samples
}

#[tactic(auto, unfolding(crate::specs::Ranges::pace_ok))]
fn pace_ok(pace: Pace) -> bool
    ensures { result ≡ pace_ok pace }
{
    match pace {
        Pace::Period(p) => period_ok(p),
        Pace::Rated(samples, rate) => rate_ok(rate) && samples_ok(samples),
    }
}

pub fn deadline_ok(deadline: u32) -> bool
    ensures { result ≡ deadline_ok deadline }
{
    (1..=MOST_DEADLINE).contains(&deadline)
}

#[tactic(auto, unfolding(crate::specs::Ranges::row_ok))]
pub fn row_ok(row: Row) -> bool
    ensures { result ≡ row_ok row }
{
    row.payload <= MOST_PAYLOAD && pace_ok(row.pace) && deadline_ok(row.deadline)
}

// The first row that is out of range.
fn out_of_range(rows: &[Row]) -> Option<usize>
    ensures { result ≡ position (λ r. not (row_ok r)) rows.now }
{
    rows.iter().position(|row| !row_ok(*row))
}

// The row count, then the header values, then the rows in order.
pub fn ranges(t: Table) -> Result<(), Refusal>
    ensures { outcome_of result ≡ ranged (contents t) }
{
    let n = t.count;
    if !(1..=ROWS).contains(&n) {
        return Err(Refusal::RowCount);
    }
    if !header_ok(t.header) {
        return Err(Refusal::Value(HEADER_PLACE));
    }
    match out_of_range(&t.rows[..n]) {
        Some(row) => Err(Refusal::Value(row)),
        None => Ok(()),
    }
}
