// The join of a row at a number, and the leave of a number.
ghost use Rattle.std.specs.Prelude.{◌≡◌};
ghost use Rattle.machine.specs.State.{view};
ghost use Rattle.machine.specs.Record.{sound};
ghost use Rattle.machine.specs.Calls as calls;
ghost use Rattle.machine.specs.Calls.{Call, offer_answer, Gives, Joined, Left};
ghost use Rattle.machine.specs.Effects.{cleared_at, patched_by, Patches};

use crate::tables::{in_use, is_quiet, with_row, without_row};
use machine::{After, Denial, Patch, Port};
use planner::acceptance::classes;
use record::check::is_sound;
use table::ranges::row_ok;
use table::{ROWS, Refusal, Row};

// What a join comes to; `whole` is what the record check says (told otherwise, what it comes to is free). The first check that fails decides: broken record, a number in use or above
// 31, the row, then the table with the row. The number has no last instant, and the bounds are worked out afresh.
// `whole` stays a parameter beside the port: a type that held that it is what the record check says would ask more of callers, each of which may tell otherwise.
pub fn judge_join(p: Port, whole: bool, number: u64, row: Row) -> Result<Patch, Denial>
    ensures { whole ≡ sound (view p) → Patches p (calls.join number row) result }
{
    if !whole {
        return Err(Denial::Broken);
    }
    if (ROWS as u64) <= number {
        return Err(Denial::InUse);
    }
    let k = number as usize;
    let t = p.table;
    if ROWS < t.count {
        return Err(Denial::Broken);
    }
    if in_use(t, k) {
        return Err(Denial::InUse);
    }
    if !row_ok(row) {
        return Err(Denial::Misfit(Refusal::Value(k)));
    }
    let u = with_row(t, k, row);
    let mut bounds = [0u64; ROWS];
    if let Err(r) = classes(&mut bounds, u, true) {
        return Err(Denial::Misfit(r));
    }
    Ok(Patch {
        table: u,
        bounds,
        cleared: Some(k),
    })
}

// What a leave comes to, told the same. The first check that fails decides: broken record, no such row, a frame in the port or a credit that is not 0, the last row of its class.
pub fn judge_leave(p: Port, whole: bool, number: u64) -> Result<Patch, Denial>
    ensures { whole ≡ sound (view p) → Patches p (calls.leave number) result }
{
    if !whole {
        return Err(Denial::Broken);
    }
    let t = p.table;
    if ROWS < t.count {
        return Err(Denial::Broken);
    }
    if (ROWS as u64) <= number {
        return Err(Denial::NoSuchRow);
    }
    let k = number as usize;
    if !in_use(t, k) {
        return Err(Denial::NoSuchRow);
    }
    if !is_quiet(p) {
        return Err(Denial::Busy);
    }
    let fewer = without_row(t, k);
    let mut lower = [0u64; ROWS];
    if classes(&mut lower, fewer, true).is_err() {
        return Err(Denial::Misfit(Refusal::Slopes));
    }
    Ok(Patch {
        table: fewer,
        bounds: lower,
        cleared: None,
    })
}

// The last instants, without that of a number.
pub fn without_last(last: [Option<u64>; ROWS], cleared: Option<usize>) -> [Option<u64>; ROWS]
    ensures { result ≡ cleared_at cleared last }
{
    let mut rest = last;
    if let Some(k) = cleared {
        if k < ROWS {
            rest[k] = None;
        }
    }
    rest
}

// A patch carried out.
pub fn carried(p: Port, x: Patch) -> Port
    ensures { result ≡ patched_by x p }
{
    let last = without_last(p.last, x.cleared);
    let bounds = x.bounds;
    Port {
        table: x.table,
        last,
        bounds,
        ..p
    }
}

// What is judged of a join or a leave carried out; a refusal hands the port back. (One with `carried` of offers would take the patch's type and the way to carry it out, `E` and `F: Fn(Port, E) -> Port`, and its clause would quote `F.post`: no plainer.)
fn patched(p: Port, judged: Result<Patch, Denial>) -> After<Result<(), Denial>>
    ensures { (c : Call) → Patches p c judged → Gives p c (offer_answer result.answer) result.port }
{
    match judged {
        Ok(x) => After {
            answer: Ok(()),
            port: carried(p, x),
        },
        Err(d) => After {
            answer: Err(d),
            port: p,
        },
    }
}

// A join: the record checked, and the row joined.
pub fn join(p: Port, number: u64, row: Row) -> After<Result<(), Denial>>
    ensures { Joined p number row result }
{
    patched(p, judge_join(p, is_sound(&p), number, row))
}

// A leave: the record checked, and the number emptied.
pub fn leave(p: Port, number: u64) -> After<Result<(), Denial>>
    ensures { Left p number result }
{
    patched(p, judge_leave(p, is_sound(&p), number))
}
