// The number and the place of a refusal.
ghost use Rattle.std.specs.Prelude.{◌≡◌, ◌≤◌};
ghost use Rattle.table.specs.Checks.{number_of, place_of, place_of_class};

use crate::{Class, Refusal};

pub fn number(r: Refusal) -> u64
    ensures value { result ≡ number_of r }
    ensures small { result ≤ 20 }
{
    match r {
        Refusal::RowCount => 3,
        Refusal::Value(_) => 5,
        Refusal::Slopes => 8,
        Refusal::Shares(_) => 9,
        Refusal::Deadline(_) => 10,
        Refusal::Frames(_) => 20,
    }
}

fn class_place(class: Class) -> usize
    ensures { result ≡ place_of_class class }
{
    match class {
        Class::A => 0,
        Class::B => 1,
    }
}

pub fn place(r: Refusal) -> usize
    ensures { result ≡ place_of r }
{
    match r {
        Refusal::RowCount => 0,
        Refusal::Value(at) => at,
        Refusal::Slopes => 0,
        Refusal::Shares(class) => class_place(class),
        Refusal::Deadline(row) => row,
        Refusal::Frames(class) => class_place(class),
    }
}
