// A call from bytes.
ghost use Rattle.std.specs.Prelude.{◌≡◌};
ghost use Rattle.callbytes.specs.Calls.{join_by, named, used_by, zeros_from, read_call};

use crate::Asked;
use rowbytes::fits::row_fits;
use rowbytes::read::row_at;
use table::Pace;
use words::words::word;

// The words and the bytes of a call, and the first word of a row that joins.
const CALL_WIDTH: usize = 9;

pub const CALL_SIZE: usize = 8 * CALL_WIDTH;

const ROW_START: usize = 2;

// A row that joins at a number, if its words fit their fields.
fn join_by(s: &[u8], number: u64) -> Option<Asked>
    ensures { result ≡ join_by s.now number }
{
    row_fits(s, ROW_START).then_some(Asked::Join(number, row_at(s, ROW_START)))
}

// The call that words name, whatever stands behind the last that it uses.
#[tactic(auto, unfolding(crate::specs::Calls::named))]
fn named(s: &[u8]) -> Option<Asked>
    ensures { result ≡ named s.now }
{
    let x = word(s, 1);
    match word(s, 0) {
        0 => Some(Asked::Offer(x, word(s, 2))),
        1 => Some(Asked::OfferBest(x)),
        2 => Some(Asked::Advance(x)),
        3 => join_by(s, x),
        4 => Some(Asked::Leave(x)),
        _ => None,
    }
}

// How many words a call uses: a join up to the last of its row's.
fn used(a: Asked) -> usize
    ensures { result ≡ used_by a }
{
    match a {
        Asked::Offer(_, _) => 3,
        Asked::Join(_, row) => match row.pace {
            Pace::Period(_) => 8,
            Pace::Rated(_, _) => 9,
        },
        Asked::OfferBest(_) | Asked::Advance(_) | Asked::Leave(_) => 2,
    }
}

// Whether all words from that of number k on are 0.
fn zeros_from(s: &[u8], k: usize) -> bool
    ensures { result ≡ zeros_from s.now k }
{
    (k..CALL_WIDTH).all(|i| word(s, i) == 0)
}

#[tactic(auto, unfolding(crate::specs::Calls::read_call))]
pub fn read_call(bytes: &[u8]) -> Option<Asked>
    ensures { result ≡ read_call bytes.now }
{
    if bytes.len() != CALL_SIZE {
        return None;
    }
    let asked = named(bytes)?;
    zeros_from(bytes, used(asked)).then_some(asked)
}
