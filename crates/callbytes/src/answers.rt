// An answer into bytes.
ghost use Rattle.std.specs.Prelude.{◌≡◌, [], ◌∷◌};
ghost use Rattle.machine.specs.Calls.{passed};
ghost use Rattle.machine.specs.Effects.{passed_answer, reply_answer};
ghost use Rattle.words.specs.Words.{flat, word_bytes};
ghost use Rattle.callbytes.specs.Calls.{fronted, answer_bytes};

use machine::numbers::{number, place};
use machine::{Denial, Frame, NO_MARK, Passed};
use words::words::put_words;

// The bytes of an answer.
pub const ANSWER_SIZE: usize = 40;

// The words of an answer at the front of a buffer; the bytes behind them keep their values. A buffer that is too short keeps every byte. The second
// word is the place of a refusal, else the byte-times passed.
// (The five words are an answer's encoding at the C interface; what an answer says is `write_reply`'s.)
pub fn put_answer(out: &mut [u8], number: u64, second: u64, source: u64, size: u64, taken: u64)
    ensures { out.new ≡ fronted (flat word_bytes (number ∷ second ∷ source ∷ size ∷ taken ∷ [])) out.old }
{
    if ANSWER_SIZE <= out.len() {
        put_words(out, 0, &[number, second, source, size, taken]);
    }
}

#[tactic(auto, unfolding(crate::specs::Calls::answer_bytes))]
fn write_ended(out: &mut [u8], n: u64, ended: Option<Frame>)
    ensures { out.new ≡ fronted (answer_bytes (passed n ended)) out.old }
{
    match ended {
        Some(f) => put_answer(out, 0, n, u64::from(f.source), u64::from(f.size), f.taken),
        None => put_answer(out, 0, n, u64::from(NO_MARK), 0, 0),
    }
}

#[tactic(auto, unfolding(crate::specs::Calls::answer_bytes))]
fn write_passed(out: &mut [u8], passed: Option<Passed>)
    ensures { out.new ≡ fronted (answer_bytes (passed_answer passed)) out.old }
{
    match passed {
        Some(x) => write_ended(out, x.count, x.ended),
        None => put_answer(out, 0, 0, u64::from(NO_MARK), 0, 0),
    }
}

// The answer of a call, put as its words are: what it has passed, where it is an advance, or its refusal.
#[tactic(auto, unfolding(crate::specs::Calls::answer_bytes))]
pub fn write_reply(out: &mut [u8], reply: Result<Option<Passed>, Denial>)
    ensures { out.new ≡ fronted (answer_bytes (reply_answer reply)) out.old }
{
    match reply {
        Ok(passed) => write_passed(out, passed),
        Err(d) => put_answer(out, number(d), place(d) as u64, u64::from(NO_MARK), 0, 0),
    }
}
