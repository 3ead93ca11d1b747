// The calls on a port, and the numbers of their answers.
ghost use Rattle.std.specs.Prelude.{◌≡◌};
ghost use Rattle.machine.specs.Calls.{offer_answer, advance_answer};
ghost use Rattle.runs.specs.Answers.{row_of, call_of, Made};
ghost use Rattle.runs.specs.Steps.{after_call};

use lent_port::carried::advance_local;
use machine::numbers::{number, place};
use machine::{After, Denial, Frame, NO_MARK, Passed, Port};
use offers::offers::{offer, offer_best};
use texts::lines::Call;
use texts::text::Answer;

// The ended frame's row: 32 for best effort, 33 for none.
fn row(e: Option<Frame>) -> u64
    ensures { result ≡ row_of e }
{
    let Some(f) = e else {
        return NO_MARK as u64;
    };
    f.source as u64
}

// A call that is made, and its answer as it is printed.
fn advanced(r: After<Result<Passed, Denial>>) -> After<Answer>
    ensures { result ≡ after_call (advance_answer r.answer) r.port }
{
    let answer = match r.answer {
        Ok(x) => Answer::Passed(x.count, row(x.ended)),
        Err(d) => Answer::Refused(number(d), place(d) as u64),
    };
    After {
        answer,
        port: r.port,
    }
}

// An offer that is taken prints what an advance does in which no byte-time passes.
fn offered(r: After<Result<(), Denial>>) -> After<Answer>
    ensures { result ≡ after_call (offer_answer r.answer) r.port }
{
    let nothing = Passed {
        count: 0,
        ended: None,
    };
    advanced(After {
        answer: r.answer.and(Ok(nothing)),
        port: r.port,
    })
}

pub fn make(p: Port, c: Call) -> After<Answer>
    ensures { Made p (call_of c) result }
{
    match c {
        Call::Offer(row, payload) => offered(offer(p, row, payload)),
        Call::Best(payload) => offered(offer_best(p, payload)),
        Call::Advance(n) => advanced(advance_local(p, n)),
    }
}
