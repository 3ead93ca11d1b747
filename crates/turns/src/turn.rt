// What a call on a port comes to.
ghost use Rattle.std.specs.Prelude.{true, false, ◌≡◌, Ok};
ghost use Rattle.machine.specs.State.{view};
ghost use Rattle.machine.specs.Record.{sound};
ghost use Rattle.machine.specs.Calls.{Call, Gives};
ghost use Rattle.machine.specs.Effects.{passed_answer, reply_answer, Judges, Patches};
ghost use Rattle.callbytes.specs.Calls.{call_of};
ghost use Rattle.turns.specs.Turns.{is_patch, no_patch, plain_call, Turns, passed_by};
ghost use Rattle.turns.specs.Steps.{span_of};

use crate::Judged;
use callbytes::Asked;
use effects::records::apply;
use machine::{Denial, Effect, Passed, Patch, Port};
use patches::patches::{carried, judge_join, judge_leave};

// How many byte-times an advance asks for. (An advance judged in two arms of `effect` stands there twice when compiled, and takes more stack.)
fn span(asked: Asked) -> u64
    ensures { result ≡ span_of asked }
{
    match asked {
        Asked::Advance(n) => n,
        _ => 0,
    }
}

// Whether a call is a join or a leave.
pub fn is_patch(asked: Asked) -> bool
    ensures { result ≡ is_patch asked }
{
    matches!(asked, Asked::Join(_, _) | Asked::Leave(_))
}

// What a join or a leave comes to; `whole` is what the record check says (told otherwise, what it comes to is free). Another call is not judged: it comes to nothing.
// `whole` stays a parameter beside the port: a type that held that it is what the record check says would ask more of callers, each of which may tell otherwise.
pub fn patch(p: Port, whole: bool, asked: Asked) -> Result<Patch, Denial>
    ensures patches { is_patch asked ≡ true → whole ≡ sound (view p) → Patches p (call_of asked) result }
    ensures other { is_patch asked ≡ false → result ≡ Ok (no_patch p) }
{
    match asked {
        Asked::Join(number, row) => judge_join(p, whole, number, row),
        Asked::Leave(number) => judge_leave(p, whole, number),
        _ => {
            let table = p.table;
            let bounds = p.bounds;
            Ok(Patch {
                table,
                bounds,
                cleared: None,
            })
        }
    }
}

// What another call comes to, told the same. Asked for a join or a leave it judges an advance by 0.
pub fn effect(p: Port, whole: bool, asked: Asked) -> Result<Effect, Denial>
    ensures { whole ≡ sound (view p) → Judges p (plain_call asked) result }
{
    let n = span(asked);
    match asked {
        Asked::Offer(row, payload) => offers::offers::judge(p, whole, row, payload),
        Asked::OfferBest(payload) => offers::offers::judge_best(p, whole, payload),
        _ => advances::advances::judge(p, whole, n),
    }
}

// What a call comes to, told the same.
pub fn turn(p: Port, whole: bool, asked: Asked) -> Result<Judged, Denial>
    ensures { whole ≡ sound (view p) → Turns p (call_of asked) result }
{
    if is_patch(asked) {
        return patch(p, whole, asked).map(Judged::Patch);
    }
    effect(p, whole, asked).map(Judged::Effect)
}

// What a call has passed: byte-times, where it is an advance.
pub fn passed(t: Judged) -> Option<Passed>
    ensures { result ≡ passed_by t }
{
    match t {
        Judged::Effect(e) => e.passed,
        Judged::Patch(_) => None,
    }
}

// What a call has come to, carried out on a lent record.
pub fn carry(p: &mut Port, j: Judged)
    ensures { (c : Call) → Turns p.old c (Ok j) → Gives p.old c (passed_answer (passed_by j)) p.new }
{
    match j {
        Judged::Effect(e) => apply(p, e),
        Judged::Patch(x) => *p = carried(*p, x),
    }
}

// A call made on a lent record, and its reply, told the same (told otherwise, both are free). An effect is carried out as it is: a `Judged` has room for a table, and by way of one a short advance takes a third longer.
pub fn make(p: &mut Port, whole: bool, asked: Asked) -> Result<Option<Passed>, Denial>
    ensures { whole ≡ sound (view p.old) → Gives p.old (call_of asked) (reply_answer result) p.new }
{
    if is_patch(asked) {
        let x = patch(*p, whole, asked)?;
        carry(p, Judged::Patch(x));
        return Ok(None);
    }
    let e = effect(*p, whole, asked)?;
    apply(p, e);
    Ok(e.passed)
}
