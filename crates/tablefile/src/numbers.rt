// The number of a fault, and the number and the place of a file that is not opened.
ghost use Rattle.std.specs.Prelude.{◌≡◌, ◌≤◌};
ghost use Rattle.tablefile.specs.Reading.{number_of, unopened_number, unopened_place};

use crate::{Fault, Unopened};

pub fn number(f: Fault) -> u64
    ensures value { result ≡ number_of f }
    ensures small { result ≤ 19 }
{
    match f {
        Fault::CutShort => 1,
        Fault::Letters => 2,
        Fault::RowCount => 3,
        Fault::MapBit => 4,
        Fault::OutOfRange => 5,
        Fault::StatesDefault => 6,
        Fault::Trailing => 7,
        Fault::TwoPaces => 19,
    }
}

impl Unopened {
    pub fn number(self) -> u64
        ensures value { result ≡ unopened_number self }
        ensures small { result ≤ 20 }
    {
        match self {
            Unopened::Misread(m) => number(m.fault),
            Unopened::Refused(r) => table::numbers::number(r),
        }
    }

    pub fn place(self) -> usize
        ensures { result ≡ unopened_place self }
    {
        match self {
            Unopened::Misread(m) => m.place,
            Unopened::Refused(r) => table::numbers::place(r),
        }
    }
}
