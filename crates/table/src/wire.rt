// Wire sizes, periods and shares.
ghost use Rattle.std.specs.Prelude.{◌≡◌, ◌*◌, ◌≤◌};
ghost use Rattle.table.specs.Limits.{D, any_size, any_period};
ghost use Rattle.table.specs.Wire.{wire_size, tagged_size, size_for, size_of, period_of, share_of};

use crate::quotient::ceil_div;
use crate::{Pace, Row};

// Slopes and shares are in millionths of the port rate.
pub const D: u64 = 1_000_000;

// The smallest wire size.
pub const LEAST_SIZE: u32 = 84;

// The bytes of a frame that are left when it is reported ended.
pub const LEFT_AT_REPORT: u32 = 12;

// The byte-times of a second.
const SECOND: u64 = 125_000_000;

// The bytes on the wire of a frame with this payload and no redundancy tag.
#[tactic(auto, unfolding(crate::specs::Wire::wire_size))]
pub fn wire_size(payload: u16) -> u64
    ensures value { result ≡ wire_size payload }
    ensures small { result ≤ any_size }
{
    42 + u64::from(payload.max(42))
}

// The bytes on the wire of a frame with a redundancy tag and this payload.
#[tactic(auto, unfolding(crate::specs::Wire::tagged_size))]
fn tagged_size(payload: u16) -> u64
    ensures value { result ≡ tagged_size payload }
    ensures small { result ≤ any_size }
{
    48 + u64::from(payload.max(36))
}

// The bytes on the wire of a row's frame with this payload.
#[tactic(auto, unfolding(crate::specs::Wire::size_for))]
pub fn size_for(row: Row, payload: u16) -> u64
    ensures value { result ≡ size_for row payload }
    ensures small { result ≤ any_size }
{
    if row.tagged {
        tagged_size(payload)
    } else {
        wire_size(payload)
    }
}

// C, a row's wire size.
#[tactic(auto, unfolding(crate::specs::Wire::size_of))]
pub fn size(row: Row) -> u64
    ensures value { result ≡ size_of row }
    ensures small { result ≤ any_size }
{
    size_for(row, row.payload)
}

// P, a row's period: the one stated, or the byte-times in which so many samples come at a rate, rounded down; 0 for a rate of 0, which no table may have.
#[tactic(auto, unfolding(crate::specs::Wire::period_of, crate::specs::Wire::paced))]
pub fn period(row: Row) -> u64
    ensures value { result ≡ period_of row }
    ensures small { result ≤ any_period }
{
    match row.pace {
        Pace::Period(p) => u64::from(p),
        Pace::Rated(_, 0) => 0,
        Pace::Rated(samples, rate) => u64::from(samples) * SECOND / u64::from(rate),
    }
}

// A row's share, D × C / P rounded up. A row with period 0, which no table may have, has share 0.
pub fn share(row: Row) -> u64
    ensures value { result ≡ share_of row }
    ensures small { result ≤ D * any_size }
{
    ceil_div(D * size(row), period(row))
}
