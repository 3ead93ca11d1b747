// The words of a row, put where there is room for them.
// Room is asked for by a `requires`, and why: see recordparts, parts.rt.
ghost use Rattle.std.specs.Prelude.{◌≡◌, [], ◌∷◌, ◌+◌, ◌*◌, ◌≤◌, length};
ghost use Rattle.words.specs.Words.{stored};
ghost use Rattle.rowbytes.specs.Row.{pace_width, row_width, class_word, pace_words, row_words};

use table::{Class, Pace, Row};

// A word that has room.
pub fn put_word(out: &mut [u8], k: usize, w: u64)
    requires { 8 * (k + 1) ≤ length out.old }
    ensures { out.new ≡ stored out.old k (w ∷ []) }
{
    words::words::put_word(out, k, w)
}

// Words that have room, one behind the other.
fn put_words(out: &mut [u8], k: usize, words: &[u64])
    requires { 8 * (k + length words.now) ≤ length out.old }
    ensures { out.new ≡ stored out.old k words.now }
{
    words::words::put_words(out, k, words)
}

// Three words, one behind the other.
pub fn put_three(out: &mut [u8], k: usize, a: u64, b: u64, c: u64)
    requires { 8 * (k + 3) ≤ length out.old }
    ensures { out.new ≡ stored out.old k (a ∷ b ∷ c ∷ []) }
{
    put_words(out, k, &[a, b, c]);
}

fn class_word(class: Class) -> u64
    ensures { result ≡ class_word class }
{
    match class {
        Class::A => 0,
        Class::B => 1,
    }
}

// A pace's mark, and its period, or its rate and samples.
fn put_pace(out: &mut [u8], k: usize, pace: Pace)
    requires { 8 * (k + pace_width) ≤ length out.old }
    ensures { out.new ≡ stored out.old k (pace_words pace) }
{
    match pace {
        Pace::Period(period) => put_words(out, k, &[0, u64::from(period)]),
        Pace::Rated(samples, rate) => {
            put_words(out, k, &[1, u64::from(rate), u64::from(samples)])
        }
    }
}

pub fn put_row(out: &mut [u8], k: usize, row: Row)
    requires { 8 * (k + row_width) ≤ length out.old }
    ensures { out.new ≡ stored out.old k (row_words row) }
{
    let class = class_word(row.class);
    let tag = u64::from(row.tagged);
    let payload = u64::from(row.payload);
    let deadline = u64::from(row.deadline);
    put_words(out, k, &[class, tag, payload, deadline]);
    put_pace(out, k + 4, row.pace);
}
