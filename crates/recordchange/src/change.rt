// A call carried out on a record's bytes: the numbers and the wire are written, and of queues and instants the words that it changes.
// Room is asked for by a `requires`, and why: see recordparts, parts.rt.
ghost use Rattle.std.specs.Prelude.{◌≡◌, true, ◌+◌, ◌*◌, ◌≤◌, length};
ghost use Rattle.machine.specs.Effects.{Room, carried_out};
ghost use Rattle.recordbytes.specs.Layout.{frame_width, record_width, record_size};
ghost use Rattle.recordbytes.specs.Record.{state_of, is_record, record_over};
ghost use Rattle.recordchange.specs.Changed.{left_over, joined_over, noted_over, changed_over, effect_over};

use machine::{BEST_PLACES, Change, Effect, Frame};
use recordbytes::{
    BEST_START, FRAME_WIDTH, LAST_START, LAST_WIDTH, QUEUEA_START, QUEUEB_START, RECORD_SIZE,
};
use recordparts::parts::{put_frame, put_last, put_numbers, put_wire};
use recordread::read::frame_at;
use rowbytes::write::put_word;
use table::{CLASS_PLACES, ROWS};
use words::words::word;

// The head of a queue leaves it, and the frames behind it move up by a place. The word of number k has the queue's count.
fn leave(out: &mut [u8], k: usize, places: usize)
    requires record_size_in_bounds { record_size ≤ length out.old }
    requires places_bound { k + 1 + frame_width * places ≤ record_width }
    ensures { out.new ≡ left_over k places out.old }
{
    let n = word(out, k) as usize;
    if places < n {
        return;
    }
    let rest = n.saturating_sub(1);
    put_word(out, k, rest as u64);
    // Stays a loop: copy_within would keep a word that is larger than its field, and `bytes` of change_record has it cut.
    for i in 0..rest {
        let f = frame_at(out, k + 1 + FRAME_WIDTH * (i + 1));
        put_frame(out, k + 1 + FRAME_WIDTH * i, f);
    }
}

// A frame joins a queue behind those that wait.
fn join(out: &mut [u8], k: usize, places: usize, f: Frame)
    requires record_size_in_bounds { record_size ≤ length out.old }
    requires places_bound { k + 1 + frame_width * places ≤ record_width }
    ensures { out.new ≡ joined_over k places f out.old }
{
    let n = word(out, k) as usize;
    if n < places {
        put_word(out, k, (n + 1) as u64);
        put_frame(out, k + 1 + FRAME_WIDTH * n, f);
    }
}

// The instant of a row's frame is the row's last.
fn note(out: &mut [u8], f: Frame)
    requires { record_size ≤ length out.old }
    ensures { out.new ≡ noted_over f out.old }
{
    let row = f.source as usize;
    if ROWS <= row {
        return;
    }
    put_last(out, LAST_START + LAST_WIDTH * row, Some(f.taken));
}

// The queue that a call changes, and the instant of a row's frame.
fn change_queue(out: &mut [u8], change: Change)
    requires { record_size ≤ length out.old }
    ensures { out.new ≡ changed_over (Some change) out.old }
{
    match change {
        Change::LeftA => leave(out, QUEUEA_START, CLASS_PLACES),
        Change::LeftB => leave(out, QUEUEB_START, CLASS_PLACES),
        Change::LeftBest => leave(out, BEST_START, BEST_PLACES),
        Change::JoinedA(f) => {
            join(out, QUEUEA_START, CLASS_PLACES, f);
            note(out, f);
        }
        Change::JoinedB(f) => {
            join(out, QUEUEB_START, CLASS_PLACES, f);
            note(out, f);
        }
        Change::JoinedBest(f) => join(out, BEST_START, BEST_PLACES, f),
    }
}

fn change_queues(out: &mut [u8], change: Option<Change>)
    requires { record_size ≤ length out.old }
    ensures { out.new ≡ changed_over change out.old }
{
    match change {
        None => {}
        Some(change) => change_queue(out, change),
    }
}

// A call's effect carried out on a record's bytes. Where the record has places for it they are what the whole port, written over them, makes of them. Bytes that are too few for a record stay as they are.
pub fn change_record(out: &mut [u8], e: Effect)
    ensures bytes { out.new ≡ effect_over e out.old }
    ensures port { is_record out.old ≡ true → Room e.change (state_of out.old) → out.new ≡ record_over (carried_out e (state_of out.old)) out.old }
{
    if out.len() < RECORD_SIZE {
        return;
    }
    put_numbers(out, e.clock, e.credita, e.creditb);
    change_queues(out, e.change);
    put_wire(out, e.wire);
}
