// A record on which an effect is carried out.
ghost use Rattle.std.specs.Prelude.{◌≡◌, length};
ghost use Rattle.table.specs.Limits.{most_rows};
ghost use Rattle.machine.specs.State.{view};
ghost use Rattle.machine.specs.Calls.{Became};
ghost use Rattle.machine.specs.Effects.{Stays};
ghost use Rattle.effects.specs.Records.{settled_on, instants_with, changed_in, applied_to};

use crate::queues::{pushed, shifted};
use machine::{Change, Effect, Frame, Port};
use table::ROWS;

// The effect's clock, credits and wire in a record.
pub fn settle(p: &mut Port, e: Effect)
    ensures { p.new ≡ settled_on e p.old }
{
    p.clock = e.clock;
    p.credita = e.credita;
    p.creditb = e.creditb;
    p.wire = e.wire;
}

// The instant of a row's frame as its row's last. A frame that names no place leaves them as they are.
fn note(last: &mut [Option<u64>; ROWS], f: Frame)
    ensures value { last.new ≡ instants_with f last.old }
    ensures places { length last.old ≡ most_rows }
{
    let k = f.source as usize;
    if k < ROWS {
        last[k] = Some(f.taken);
    }
}

// A queue changed as far as it has places, and the instant of a row's frame noted.
fn change(p: &mut Port, change: Change)
    ensures { Became (changed_in (Some change) (view p.old)) p.old p.new }
{
    match change {
        Change::LeftA => p.a = shifted(p.a),
        Change::LeftB => p.b = shifted(p.b),
        Change::LeftBest => p.best = shifted(p.best),
        Change::JoinedA(f) => {
            p.a = pushed(p.a, f);
            note(&mut p.last, f);
        }
        Change::JoinedB(f) => {
            p.b = pushed(p.b, f);
            note(&mut p.last, f);
        }
        Change::JoinedBest(f) => p.best = pushed(p.best, f),
    }
}

// An effect carried out on a lent record, as far as it has places.
pub fn apply(p: &mut Port, e: Effect)
    ensures became { Became (applied_to e (view p.old)) p.old p.new }
    ensures kept { Stays p.old e → p.new ≡ p.old }
{
    match e.change {
        None => settle(p, e),
        Some(c) => {
            change(p, c);
            settle(p, e);
        }
    }
}

// The record with an effect carried out.
pub fn applied(p: Port, e: Effect) -> Port
    ensures became { Became (applied_to e (view p)) p result }
    ensures kept { Stays p e → result ≡ p }
{
    let mut q = p;
    apply(&mut q, e);
    q
}
