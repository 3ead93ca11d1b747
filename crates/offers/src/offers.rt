// The offer to a row and the offer of best effort.
ghost use Rattle.std.specs.Prelude.{◌≡◌};
ghost use Rattle.table.specs.Wire.{period_of};
ghost use Rattle.table.specs.Checks.{Outcome};
ghost use Rattle.machine.specs.State.{instant_of, view};
ghost use Rattle.machine.specs.Record.{sound};
ghost use Rattle.machine.specs.Calls as calls;
ghost use Rattle.machine.specs.Calls.{Call, offer, offer_best, too_soon, answer_by, answer, offer_answer, Gives, Offered, OfferedBest};
ghost use Rattle.machine.specs.Effects.{Judges};
ghost use Rattle.offers.specs.Steps.{effect_on, joined_in};

use effects::records::applied;
use machine::{After, BEST_MARK, BEST_PLACES, Change, Denial, Effect, Frame, Port};
use record::check::is_sound;
use table::rows::is_there;
use table::wire::{period, size_for, wire_size};
use table::{Class, ROWS, Row};

// An offer that is taken moves no clock, no credit and no wire: a frame joins a queue.
fn taken(p: Port, change: Change) -> Effect
    ensures { result ≡ effect_on p change }
{
    Effect {
        passed: None,
        clock: p.clock,
        credita: p.credita,
        creditb: p.creditb,
        wire: p.wire,
        change: Some(change),
    }
}

// Less than its period has passed since a row's last frame was taken. A first frame is never early. (No sound record has a later instant than its clock.)
fn too_soon(last: Option<u64>, clock: u64, row: Row) -> bool
    ensures { result ≡ too_soon (instant_of last) clock (period_of row) }
{
    let Some(taken) = last else {
        return false;
    };
    clock.saturating_sub(taken) < period(row)
}

// A row's frame joins its class's queue.
fn joined(class: Class, f: Frame) -> Change
    ensures { result ≡ joined_in class f }
{
    match class {
        Class::A => Change::JoinedA(f),
        Class::B => Change::JoinedB(f),
    }
}

// What an offer to a row comes to; `whole` is what the record check says (told otherwise, what it comes to is free). The first check that fails decides: broken record, no such row,
// payload, early.
// `whole` stays a parameter beside the port: a type that held that it is what the record check says would ask more of callers, each of which may tell otherwise.
pub fn judge(p: Port, whole: bool, row: u64, payload: u64) -> Result<Effect, Denial>
    ensures { whole ≡ sound (view p) → Judges p (offer row payload) result }
{
    if !whole {
        return Err(Denial::Broken);
    }
    if (p.table.count as u64) <= row {
        return Err(Denial::NoSuchRow);
    }
    if (ROWS as u64) <= row {
        return Err(Denial::NoSuchRow);
    }
    let k = row as usize;
    let t = p.table;
    let stream = t.rows[k];
    if !is_there(stream) {
        return Err(Denial::NoSuchRow);
    }
    if (stream.payload as u64) < payload {
        return Err(Denial::Payload);
    }
    let last = p.last;
    let l = last[k];
    if too_soon(l, p.clock, stream) {
        return Err(Denial::Early);
    }
    let f = Frame {
        source: k as u32,
        size: size_for(stream, payload as u16) as u32,
        taken: p.clock,
    };
    Ok(taken(p, joined(stream.class, f)))
}

// What an offer of best effort comes to, told the same. The first check that fails decides: broken record, payload, 16 waiting.
pub fn judge_best(port: Port, whole: bool, payload: u64) -> Result<Effect, Denial>
    ensures { whole ≡ sound (view port) → Judges port (offer_best payload) result }
{
    if !whole {
        return Err(Denial::Broken);
    }
    let most = port.table.header.payload as u64;
    let waits = port.best.count;
    if most < payload {
        return Err(Denial::Payload);
    }
    if BEST_PLACES <= waits {
        return Err(Denial::BestEffortFull);
    }
    let f = Frame {
        source: BEST_MARK,
        size: wire_size(payload as u16) as u32,
        taken: port.clock,
    };
    Ok(taken(port, Change::JoinedBest(f)))
}

// What is judged of an offer carried out; a refusal hands the port back. (One with `patched` of patches would take the effect's type and the way to carry it out, `E` and `F: Fn(Port, E) -> Port`, and its clause would quote `F.post`: no plainer.)
fn carried(p: Port, judged: Result<Effect, Denial>) -> After<Result<(), Denial>>
    ensures { (c : Call) (o : Outcome) → answer (view p) c ≡ answer_by o calls.taken → Judges p c judged → Gives p c (offer_answer result.answer) result.port }
{
    match judged {
        Ok(e) => After {
            answer: Ok(()),
            port: applied(p, e),
        },
        Err(d) => After {
            answer: Err(d),
            port: p,
        },
    }
}

// An offer to a row: the record checked, the offer judged, and its effect carried out.
pub fn offer(p: Port, row: u64, payload: u64) -> After<Result<(), Denial>>
    ensures { Offered p row payload result }
{
    carried(p, judge(p, is_sound(&p), row, payload))
}

// An offer of best effort.
pub fn offer_best(p: Port, payload: u64) -> After<Result<(), Denial>>
    ensures { OfferedBest p payload result }
{
    carried(p, judge_best(p, is_sound(&p), payload))
}
