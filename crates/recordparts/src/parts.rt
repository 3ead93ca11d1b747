// The words of a port's parts, each put where there is room for them.
// Room is asked for by a `requires`: behind a `&mut` to a struct that has the bytes, each function would have to say that it leaves the same bytes there (`ghost_name`).
ghost use Rattle.std.specs.Prelude.{◌≡◌, [], ◌∷◌, ◌+◌, ◌*◌, ◌≤◌, length};
ghost use Rattle.words.specs.Words.{stored};
ghost use Rattle.machine.specs.State.{instant_of};
ghost use Rattle.recordbytes.specs.Layout.{clock_start, wire_start, frame_width, last_width, record_size};
ghost use Rattle.recordbytes.specs.Record.{signed_word, frame_words, last_words, wire_words};

use machine::{Frame, Wire};
use recordbytes::{CLOCK_START, FRAME_WIDTH, WIRE_START};
use rowbytes::write::{put_three, put_word};

// The clock and the credits, these in two's complement.
pub fn put_numbers(out: &mut [u8], clock: u64, a: i64, b: i64)
    requires { record_size ≤ length out.old }
    ensures { out.new ≡ stored out.old clock_start (clock ∷ signed_word a ∷ signed_word b ∷ []) }
{
    put_three(
        out,
        CLOCK_START,
        clock,
        a.cast_unsigned(),
        b.cast_unsigned(),
    );
}

pub fn put_frame(out: &mut [u8], k: usize, frame: Frame)
    requires { 8 * (k + frame_width) ≤ length out.old }
    ensures { out.new ≡ stored out.old k (frame_words frame) }
{
    put_three(out, k, frame.source as u64, frame.size as u64, frame.taken);
}

// A row's mark, and its instant if it has one.
pub fn put_last(out: &mut [u8], k: usize, last: Option<u64>)
    requires { 8 * (k + last_width) ≤ length out.old }
    ensures { out.new ≡ stored out.old k (last_words (instant_of last)) }
{
    match last {
        None => {
            put_word(out, k, 0);
        }
        Some(taken) => {
            put_word(out, k, 1);
            put_word(out, k + 1, taken);
        }
    }
}

pub fn put_wire(out: &mut [u8], w: Wire)
    requires { record_size ≤ length out.old }
    ensures { out.new ≡ stored out.old wire_start (wire_words w) }
{
    match w {
        Wire::Free => put_word(out, WIRE_START, 0),
        Wire::Sending(frame, left) => {
            put_word(out, WIRE_START, 1);
            put_frame(out, WIRE_START + 1, frame);
            put_word(out, WIRE_START + 1 + FRAME_WIDTH, left as u64);
        }
    }
}
