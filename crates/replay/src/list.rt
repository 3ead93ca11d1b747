// A list of calls on the port of a table file.
ghost use Rattle.std.specs.Prelude.{◌≡◌, ◌+◌, ◌*◌, ◌≤◌, length, None};
ghost use Rattle.codes.specs.Codes.{code_of};
ghost use Rattle.machine.specs.State.{view};
ghost use Rattle.machine.specs.Calls.{answer, after};
ghost use Rattle.callbytes.specs.Calls.{call_size, answer_size, call_of, fronted, answer_bytes};
ghost use Rattle.replay.specs.List.{asked_at, first_unreadable, count_of, list_check, Replayed};
ghost use Rattle.replay.specs.Steps.{outcome_of, checked_by, Listed};

use crate::Fault;
use callbytes::Asked;
use callbytes::answers::{ANSWER_SIZE, write_reply};
use callbytes::calls::{CALL_SIZE, read_call};
use codes::{code, of_unopened};
use machine::Port;
use record::check::is_sound;
use turns::opened::open_file;
use turns::turn::make;

// The call of number i, if it can be read.
fn asked_at(calls: &[u8], i: usize) -> Option<Asked>
    requires { call_size * i + call_size ≤ length calls.now }
    ensures { result ≡ asked_at calls.now i }
{
    let from = CALL_SIZE * i;
    let to = from + CALL_SIZE;
    read_call(&calls[from..to])
}

// The first of n calls that can't be read.
fn first_unreadable(calls: &[u8], n: usize) -> Option<usize>
    requires { call_size * n ≤ length calls.now }
    ensures { result ≡ first_unreadable calls.now n }
{
    (0..n).find(|i| asked_at(calls, *i).is_none())
}

// Whether a list fits, and its answers fit in so many bytes.
#[tactic(auto, unfolding(crate::specs::List::list_check))]
fn list_check(calls: &[u8], room: usize) -> Result<(), Fault>
    ensures { checked_by result ≡ list_check calls.now room }
{
    if !calls.len().is_multiple_of(CALL_SIZE) {
        return Err(Fault::Odd);
    }
    let n = calls.len() / CALL_SIZE;
    if let Some(k) = first_unreadable(calls, n) {
        return Err(Fault::Unreadable(k));
    }
    if room / ANSWER_SIZE < n {
        return Err(Fault::Room);
    }
    Ok(())
}

fn fault_code(f: Fault) -> u64
    ensures { result ≡ code_of (outcome_of f) }
{
    match f {
        Fault::Odd => code(101, 0),
        Fault::Unreadable(k) => code(102, k),
        Fault::Room => code(103, 0),
    }
}

// One call on a lent port, and its answer at the front of a buffer.
fn step(p: &mut Port, asked: Asked, out: &mut [u8])
    ensures answer { out.new ≡ fronted (answer_bytes (answer (view p.old) (call_of asked))) out.old }
    ensures port { view p.new ≡ after (view p.old) (call_of asked) }
{
    let whole = is_sound(p);
    write_reply(out, make(p, whole, asked));
}

// All calls, one answer behind the other.
fn steps(port: Port, calls: &[u8], out: &mut [u8])
    requires room { answer_size * count_of calls.now ≤ length out.old }
    requires readable { first_unreadable calls.now (count_of calls.now) ≡ None }
    ensures { Listed port calls.now out.old out.new }
{
    let mut p = port;
    for i in 0..calls.len() / CALL_SIZE {
        let at = ANSWER_SIZE * i;
        if let Some(asked) = asked_at(calls, i) {
            step(&mut p, asked, &mut out[at..]);
        }
    }
}

// The port of a table file, and all calls on it. At a refusal no byte is written.
pub fn replay(file: &[u8], calls: &[u8], out: &mut [u8]) -> u64
    ensures { Replayed file.now calls.now out.old out.new result }
{
    if let Err(f) = list_check(calls, out.len()) {
        return fault_code(f);
    }
    match open_file(file) {
        Ok(p) => {
            steps(p, calls, out);
            0
        }
        Err(e) => of_unopened(e),
    }
}
