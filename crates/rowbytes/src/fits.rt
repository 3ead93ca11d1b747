// Whether words name a row: each of them fits its field.
// That the places are below 2^64 stays a `requires`: a number beside each word's place is no plainer as a type.
ghost use Rattle.std.specs.Prelude.{◌≡◌, ◌+◌, ◌<◌, ◌^◌};
ghost use Rattle.rowbytes.specs.Row.{pace_width, row_width, pace_fits, row_fits};

use words::words::word;

// The largest numbers of 8, of 16 and of 32 bits.
const U8: u64 = u8::MAX as u64;

pub const U16: u64 = u16::MAX as u64;

pub const U32: u64 = u32::MAX as u64;

// Behind the mark stands a period or a rate.
#[tactic(auto, unfolding(crate::specs::Row::pace_fits))]
fn pace_fits(s: &[u8], k: usize) -> bool
    requires { k + pace_width < 2 ^ 64 }
    ensures { result ≡ pace_fits s.now k }
{
    let value = word(s, k + 1) <= U32;
    match word(s, k) {
        0 => value,
        1 => value && word(s, k + 2) <= U8,
        _ => false,
    }
}

pub fn row_fits(s: &[u8], k: usize) -> bool
    requires { k + row_width < 2 ^ 64 }
    ensures { result ≡ row_fits s.now k }
{
    word(s, k) <= 1
        && word(s, k + 1) <= 1
        && word(s, k + 2) <= U16
        && word(s, k + 3) <= U32
        && pace_fits(s, k + 4)
}
