// What reader and writer share of the layout in an edition: the letters, where the header's fields stand, a map byte's bits, where a row's fields stand, and the defaults.
ghost use Rattle.std.specs.Prelude.{◌≡◌, cond, ◌+◌, ◌≤◌};
ghost use Rattle.tablefile.specs.Layout as layout;
ghost use Rattle.tablefile.specs.Layout.{Payload, Period, Deadline, Rate, Samples, stated_of, rate_of, samples_of, bit_of, reserved_clear, allows, tagged_of, two_paces, class_of, class_bit, place_of, row_size, default_payload, default_period, default_deadline};

use crate::Edition;
use table::wire::period;
use table::{Class, Pace, Row};

const AVB1: [u8; 4] = *b"AVB1";

const AVB2: [u8; 4] = *b"AVB2";

// The letters that a file opens with.
pub fn letters(edition: Edition) -> [u8; 4]
    ensures { result ≡ layout.letters edition }
{
    match edition {
        Edition::Avb1 => AVB1,
        Edition::Avb2 => AVB2,
    }
}

pub const HEADER_SIZE: usize = 15;

// Where the header's fields stand.
pub const IDLEA_PLACE: usize = 4;

pub const IDLEB_PLACE: usize = 8;

pub const BEST_PLACE: usize = 12;

pub const COUNT_PLACE: usize = 14;

// Where a row's payload stands, if it does, and how many bytes each field of a row has.
pub const PAYLOAD_PLACE: usize = 1;

pub const PAYLOAD_WIDTH: usize = 2;

pub const PERIOD_WIDTH: usize = 4;

pub const DEADLINE_WIDTH: usize = 4;

pub const RATE_WIDTH: usize = 4;

pub const SAMPLES_WIDTH: usize = 1;

// The weights of a map byte's bits: one for each field, rate and samples together, the tag's, the lowest of those that are reserved in every edition, and class B's above those.
pub const PAYLOAD_WEIGHT: u8 = 1;

pub const PERIOD_WEIGHT: u8 = 2;

pub const DEADLINE_WEIGHT: u8 = 4;

pub const RATE_WEIGHT: u8 = 8;

pub const TAG_WEIGHT: u8 = 16;

const RESERVED_WEIGHT: u8 = 32;

const CLASS_WEIGHT: u8 = 128;

// What a map byte says: which fields stand, whether no reserved bit does, whether the row is tagged, whether both paces stand, and the class. (A function for each named bit: with the weight as a parameter every caller would name the weight beside the bit's meaning.)
pub fn payload_stands(map: u8) -> bool
    ensures { result ≡ bit_of Payload map }
{
    map / PAYLOAD_WEIGHT % 2 == 1
}

pub fn period_stands(map: u8) -> bool
    ensures { result ≡ bit_of Period map }
{
    map / PERIOD_WEIGHT % 2 == 1
}

pub fn deadline_stands(map: u8) -> bool
    ensures { result ≡ bit_of Deadline map }
{
    map / DEADLINE_WEIGHT % 2 == 1
}

// The bit of the rate and of the samples.
pub fn rate_stands(map: u8) -> bool
    ensures { result ≡ bit_of Rate map }
{
    map / RATE_WEIGHT % 2 == 1
}

// The bits below the class's, taken together, are below the lowest reserved one. AVB1 reserves the tag's bit too.
pub fn reserved_clear(edition: Edition, map: u8) -> bool
    ensures { result ≡ reserved_clear edition map }
{
    match edition {
        Edition::Avb1 => map % CLASS_WEIGHT < TAG_WEIGHT,
        Edition::Avb2 => map % CLASS_WEIGHT < RESERVED_WEIGHT,
    }
}

pub fn tagged_of(edition: Edition, map: u8) -> bool
    ensures { result ≡ tagged_of edition map }
{
    match edition {
        Edition::Avb1 => false,
        Edition::Avb2 => map / TAG_WEIGHT % 2 == 1,
    }
}

// Whether a row may stand in a file of the edition: a tagged one in an AVB2 file alone.
pub fn allowed(edition: Edition, row: Row) -> bool
    ensures { result ≡ allows edition row }
{
    !row.tagged || matches!(edition, Edition::Avb2)
}

pub fn two_paces(map: u8) -> bool
    ensures { result ≡ two_paces map }
{
    period_stands(map) && rate_stands(map)
}

pub fn class_of(map: u8) -> Class
    ensures { result ≡ class_of map }
{
    if CLASS_WEIGHT <= map {
        Class::B
    } else {
        Class::A
    }
}

// The class's part of a map byte.
pub fn class_bit(class: Class) -> u8
    ensures value { result ≡ class_bit class }
    ensures small { result ≤ 128 }
{
    match class {
        Class::A => 0,
        Class::B => CLASS_WEIGHT,
    }
}

// Behind a field at a place, which takes its bytes where its bit stands, and else none.
fn behind(place: usize, stands: bool, width: usize) -> usize
    requires { place + width ≤ 16 }
    ensures value { result ≡ place + cond stands width 0 }
    ensures small { result ≤ place + width }
{
    if stands { place + width } else { place }
}

// Where a row's period, deadline, rate and samples stand, and the row's size, counted from the map byte.
pub fn period_place(map: u8) -> usize
    ensures value { result ≡ place_of Period map }
    ensures small { result ≤ 3 }
{
    behind(PAYLOAD_PLACE, payload_stands(map), PAYLOAD_WIDTH)
}

pub fn deadline_place(map: u8) -> usize
    ensures value { result ≡ place_of Deadline map }
    ensures small { result ≤ 7 }
{
    behind(period_place(map), period_stands(map), PERIOD_WIDTH)
}

pub fn rate_place(map: u8) -> usize
    ensures value { result ≡ place_of Rate map }
    ensures small { result ≤ 11 }
{
    behind(deadline_place(map), deadline_stands(map), DEADLINE_WIDTH)
}

pub fn samples_place(map: u8) -> usize
    ensures value { result ≡ place_of Samples map }
    ensures small { result ≤ 15 }
{
    behind(rate_place(map), rate_stands(map), RATE_WIDTH)
}

pub fn row_size(map: u8) -> usize
    ensures value { result ≡ row_size map }
    ensures small { result ≤ 16 }
{
    behind(samples_place(map), rate_stands(map), SAMPLES_WIDTH)
}

// What a pace says in each field, 0 where it says nothing.
pub fn stated(pace: Pace) -> u32
    ensures { result ≡ stated_of pace }
{
    match pace {
        Pace::Period(p) => p,
        Pace::Rated(_, _) => 0,
    }
}

pub fn rate(pace: Pace) -> u32
    ensures { result ≡ rate_of pace }
{
    match pace {
        Pace::Period(_) => 0,
        Pace::Rated(_, rate) => rate,
    }
}

pub fn samples(pace: Pace) -> u8
    ensures { result ≡ samples_of pace }
{
    match pace {
        Pace::Period(_) => 0,
        Pace::Rated(samples, _) => samples,
    }
}

// The defaults in an edition. Each may go by what stands before its field in the row.
pub fn default_payload(_edition: Edition, row: Row) -> u16
    ensures { result ≡ default_payload _edition row }
{
    if row.tagged { 36 } else { 42 }
}

pub fn default_period(_edition: Edition, row: Row) -> u32
    ensures { result ≡ default_period _edition row }
{
    match row.class {
        Class::A => 15_625,
        Class::B => 31_250,
    }
}

pub fn default_deadline(_edition: Edition, row: Row) -> u64
    ensures { result ≡ default_deadline _edition row }
{
    period(row)
}
