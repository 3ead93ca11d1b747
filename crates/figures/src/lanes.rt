// The slope rules, and the numbers of each class, from the header and both classes' figures.
ghost use Rattle.std.specs.Prelude.{◌≡◌, ◌≤◌, eqb};
ghost use Rattle.table.specs.Limits.{most_slope};
ghost use Rattle.figures.specs.Lanes.{same_test};
ghost use Rattle.figures.specs.Steps.{Small, slopes_by, lane_a, lane_b, Modest};

use crate::{Figures, Lane};
use table::Header;
use table::quotient::ceil_div;
use table::ranges::MOST_SLOPE;
use table::wire::{D, wire_size};

// A class's idle slope is 0 exactly if it has no row.
fn used_ok(idle: u32, members: u64) -> bool
    ensures { result ≡ same_test (eqb idle 0) (eqb members 0) }
{
    (idle == 0) == (members == 0)
}

pub fn slopes_ok(h: Header, a: Figures, b: Figures) -> bool
    ensures { result ≡ slopes_by h a b }
{
    used_ok(h.idlea, a.members)
        && used_ok(h.idleb, b.members)
        && u64::from(h.idlea) + u64::from(h.idleb) <= u64::from(MOST_SLOPE)
}

// Slopes and sizes stay requires, here and for class B: the promise is for any such numbers, and a type would ask more.
// Class A waits for the largest frame of B or of best effort.
pub fn lane_a(h: Header, a: Figures, b: Figures) -> Lane
    requires idlea_le_most_slope { h.idlea ≤ most_slope }
    requires small { Small 32 a }
    requires small_2 { Small 32 b }
    ensures value { result ≡ lane_a h a b }
    ensures modest { Modest result }
{
    Lane {
        idle: u64::from(h.idlea),
        largest: a.largest,
        total: a.total,
        blocking: b.largest.max(wire_size(h.payload)),
    }
}

// Class B waits for the largest frame of A, and while A sends what it saved up behind a frame of B or of best effort.
pub fn lane_b(h: Header, a: Figures, b: Figures) -> Lane
    requires idlea_le_most_slope { h.idlea ≤ most_slope }
    requires idleb_le_most_slope { h.idleb ≤ most_slope }
    requires small { Small 32 a }
    requires small_2 { Small 32 b }
    ensures value { result ≡ lane_b h a b }
    ensures modest { Modest result }
{
    let ia = u64::from(h.idlea);
    let saved = (D * wire_size(h.payload)).max(ia * b.largest);
    Lane {
        idle: u64::from(h.idleb),
        largest: b.largest,
        total: b.total,
        blocking: a.largest + ceil_div(saved, D - ia),
    }
}
