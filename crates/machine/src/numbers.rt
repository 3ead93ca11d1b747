// The number and the place of a refused call.
ghost use Rattle.std.specs.Prelude.{◌≡◌, ◌≤◌};
ghost use Rattle.machine.specs.Calls.{number_of, place_of};

use crate::Denial;

pub fn number(d: Denial) -> u64
    ensures value { result ≡ number_of d }
    ensures small { result ≤ 22 }
{
    match d {
        Denial::Broken => 18,
        Denial::NoSuchRow => 11,
        Denial::Payload => 12,
        Denial::Early => 13,
        Denial::BestEffortFull => 14,
        Denial::TooManySteps => 15,
        Denial::PastLastClock => 16,
        Denial::InUse => 22,
        Denial::Busy => 21,
        Denial::Misfit(r) => table::numbers::number(r),
    }
}

pub fn place(d: Denial) -> usize
    ensures { result ≡ place_of d }
{
    match d {
        Denial::Broken => 0,
        Denial::NoSuchRow => 0,
        Denial::Payload => 0,
        Denial::Early => 0,
        Denial::BestEffortFull => 0,
        Denial::TooManySteps => 0,
        Denial::PastLastClock => 0,
        Denial::InUse => 0,
        Denial::Busy => 0,
        Denial::Misfit(r) => table::numbers::place(r),
    }
}
