// The advance.
ghost use Rattle.std.specs.Prelude.{◌≡◌};
ghost use Rattle.machine.specs.State.{view};
ghost use Rattle.machine.specs.Record.{sound};
ghost use Rattle.machine.specs.Calls.{advance, Advanced};
ghost use Rattle.machine.specs.Effects.{Judges};
ghost use Rattle.advances.specs.Steps.{passed_of};

use crate::numbers::{fixed, hot};
use crate::ports::{ended, frame_of, left, wire_now};
use bytetime::run::run;
use effects::records::applied;
use machine::{After, Denial, Effect, LAST_CLOCK, MOST_STEPS, Passed, Port};
use record::check::is_sound;

// What an advance by n byte-times comes to; `whole` is what the record check says (told otherwise, what it comes to is free). The first check that fails decides: broken record, more
// than 65,535, past the last clock. Else byte-times pass until a frame is reported or n have passed.
// `whole` stays a parameter beside the port: a type that held that it is what the record check says would ask more of callers, each of which may tell otherwise.
pub fn judge(p: Port, whole: bool, n: u64) -> Result<Effect, Denial>
    ensures { whole ≡ sound (view p) → Judges p (advance n) result }
{
    if !whole {
        return Err(Denial::Broken);
    }
    if MOST_STEPS < n {
        return Err(Denial::TooManySteps);
    }
    if LAST_CLOCK - n < p.clock {
        return Err(Denial::PastLastClock);
    }
    let ran = run(hot(p), fixed(p), n);
    let h = ran.hot;
    let f = frame_of(p, h);
    Ok(Effect {
        passed: Some(Passed {
            count: ran.passed,
            ended: ended(ran.ended, f),
        }),
        clock: p.clock + ran.passed,
        credita: h.credita,
        creditb: h.creditb,
        wire: wire_now(h.sender, f, h.left),
        change: left(h.moved, h.sender),
    })
}

// What an effect says that an advance has passed. (The effect of an advance says it.)
fn passed(e: Effect) -> Passed
    ensures { result ≡ passed_of e.passed }
{
    e.passed.unwrap_or(Passed {
        count: 0,
        ended: None,
    })
}

// An advance by n byte-times: the record checked, the advance judged, and its effect carried out.
pub fn advance(p: Port, n: u64) -> After<Result<Passed, Denial>>
    ensures { Advanced p n result }
{
    match judge(p, is_sound(&p), n) {
        Ok(e) => After {
            answer: Ok(passed(e)),
            port: applied(p, e),
        },
        Err(d) => After {
            answer: Err(d),
            port: p,
        },
    }
}
