// A row's residence, its bound, and how many of its frames may be in the port.
ghost use Rattle.std.specs.Prelude.{true, ◌≡◌, ◌≤◌, ◌<◌};
ghost use Rattle.table.specs.Wire.{ceil_div, period_of};
ghost use Rattle.table.specs.Rows.{is_there};
ghost use Rattle.figures.specs.Parts.{part, until_report};
ghost use Rattle.figures.specs.Lanes.{pick_lane, residence_with, modest, residence_by};
ghost use Rattle.figures.specs.Steps.{Modest, Ready, time_by};

use crate::{Both, Lane};
use table::quotient::ceil_div;
use table::ranges::MOST_SLOPE;
use table::rows::is_there;
use table::wire::{D, LEFT_AT_REPORT, period, size};
use table::{Class, Row};

// No number of a class that an accepted table has is as large.
const MODEST: u64 = 1_099_511_627_776;

fn lane(class: Class, lanes: Both<Lane>) -> Lane
    ensures { result ≡ pick_lane class lanes.a lanes.b }
{
    match class {
        Class::A => lanes.a,
        Class::B => lanes.b,
    }
}

// A row's residence, from its wire size and its class.
fn row_residence(c: u64, l: Lane) -> u64
    requires modest { Modest l }
    requires idle_nonzero { 0 < l.idle }
    requires c_le_total { c ≤ l.total }
    ensures { result ≡ residence_with c l }
{
    let send = D - l.idle;
    c + l.blocking + (D * (l.total - c) + send * l.largest) / l.idle
}

// The residence of the row at a number, 0 at an empty one.
pub fn row_time(row: Row, lanes: Both<Lane>) -> u64
    requires { Ready row lanes.a lanes.b }
    ensures { result ≡ time_by lanes.a lanes.b row }
{
    if !is_there(row) {
        return 0;
    }
    row_residence(size(row), lane(row.class, lanes))
}

// What a row adds to the frames that a class may have in the port: its residence divided by its period, rounded up. That is 1 where the residence is within the period.
pub fn most_of(class: Class, row: Row, residence: u64) -> u64
    requires { is_there row ≡ true → 0 < residence }
    ensures value { result ≡ part class (λ x. ceil_div residence (period_of x)) row }
    ensures small { result ≤ residence }
{
    if class != row.class || !is_there(row) {
        return 0;
    }
    let p = period(row);
    if residence <= p {
        1
    } else {
        ceil_div(residence, p)
    }
}

// The numbers of a class are small, and it has an idle slope.
#[tactic(auto, unfolding(crate::specs::Lanes::modest))]
fn is_modest(l: Lane) -> bool
    ensures { result ≡ modest l }
{
    1 <= l.idle
        && l.idle <= u64::from(MOST_SLOPE)
        && l.largest <= MODEST
        && l.total <= MODEST
        && l.blocking <= MODEST
}

// A row's residence, by the classes of an accepted table that has it; 0 by numbers that are not small, or by a sum below the row's wire size.
#[tactic(auto, unfolding(crate::specs::Lanes::residence_by))]
pub fn residence(row: Row, lanes: Both<Lane>) -> u64
    ensures { result ≡ residence_by lanes.a lanes.b row }
{
    let l = lane(row.class, lanes);
    let c = size(row);
    if is_modest(l) && c <= l.total {
        row_residence(c, l)
    } else {
        0
    }
}

// A row's bound, from its residence.
pub fn bound_of(residence: u64) -> u64
    ensures { result ≡ until_report residence }
{
    residence.saturating_sub(u64::from(LEFT_AT_REPORT))
}
