// The row that words name.
// That the places are below 2^64 stays a `requires`: a number beside each word's place is no plainer as a type.
ghost use Rattle.std.specs.Prelude.{◌≡◌, ◌+◌, ◌<◌, ◌^◌};
ghost use Rattle.words.specs.Words.{word_at};
ghost use Rattle.rowbytes.specs.Row.{pace_width, row_width, u8_of, u16_of, u32_of, class_of, pace_at, row_at};

use table::{Class, Pace, Row};
use words::words::word;

// Of the word of number k, what a field of 8, of 16 or of 32 bits can hold. (One for each width: each is a cast, and one for all would be no plainer.)
fn u8_at(s: &[u8], k: usize) -> u8
    ensures { result ≡ u8_of (word_at s.now k) }
{
    (word(s, k) % 256) as u8
}

pub fn u16_at(s: &[u8], k: usize) -> u16
    ensures { result ≡ u16_of (word_at s.now k) }
{
    (word(s, k) % 65_536) as u16
}

pub fn u32_at(s: &[u8], k: usize) -> u32
    ensures { result ≡ u32_of (word_at s.now k) }
{
    (word(s, k) % 4_294_967_296) as u32
}

fn class_of(w: u64) -> Class
    ensures { result ≡ class_of w }
{
    if w == 0 { Class::A } else { Class::B }
}

// Behind the mark stands a period or a rate.
#[tactic(auto, unfolding(crate::specs::Row::pace_at))]
fn pace_at(s: &[u8], k: usize) -> Pace
    requires { k + pace_width < 2 ^ 64 }
    ensures { result ≡ pace_at s.now k }
{
    let value = u32_at(s, k + 1);
    if word(s, k) == 1 {
        Pace::Rated(u8_at(s, k + 2), value)
    } else {
        Pace::Period(value)
    }
}

pub fn row_at(s: &[u8], k: usize) -> Row
    requires { k + row_width < 2 ^ 64 }
    ensures { result ≡ row_at s.now k }
{
    Row {
        class: class_of(word(s, k)),
        tagged: word(s, k + 1) != 0,
        payload: u16_at(s, k + 2),
        pace: pace_at(s, k + 4),
        deadline: u32_at(s, k + 3),
    }
}
