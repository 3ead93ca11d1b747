// Whether a row's frames were taken a period apart, in whichever order they stand.
ghost use Rattle.std.specs.Prelude.{◌≡◌, ◌++◌, ◌+◌, ◌≤◌, length};
ghost use Rattle.machine.specs.Limits.{class_places};
ghost use Rattle.machine.specs.Record.{taken_in, sending, apart, apart_from, spaced};
ghost use Rattle.spacing.specs.Spread.{spread_test};
ghost use Rattle.spacing.specs.Steps.{listed, most_frames};

use crate::{Instants, MOST_FRAMES};
use machine::{Frame, Queue, Wire};
use table::wire::period;
use table::{CLASS_PLACES, Table};

// Two instants, whichever is later.
fn apart(x: u64, y: u64, period: u64) -> bool
    ensures { result ≡ apart period x y }
{
    period <= x.abs_diff(y)
}

// An instant from each of others.
fn apart_from(x: u64, others: &[u64], period: u64) -> bool
    ensures { result ≡ apart_from period x others.now }
{
    others.iter().all(|y| apart(x, *y, period))
}

// Each instant from each. Stays a loop: tried by `all`, and `returns` did not close at what the closure, which takes a part of `xs`, gives.
fn all_apart(xs: &[u64], period: u64) -> bool
    ensures { result ≡ spaced period xs.now }
{
    for (i, x) in xs.iter().enumerate() {
        if !apart_from(*x, &xs[i + 1..], period) {
            return false;
        }
    }
    true
}

// The instants of row k's frames that wait in a class's queue, behind others.
fn with_queue(xs: Instants, frames: &[Frame], k: usize) -> Instants
    requires { xs.count + length frames.now ≤ most_frames }
    ensures result_value { listed result ≡ listed xs ++ taken_in k frames.now }
    ensures few { result.count ≤ xs.count + length frames.now }
{
    let mut next = xs;
    for f in frames {
        if f.source as usize == k {
            next.taken[next.count] = f.taken;
            next.count += 1;
        }
    }
    next
}

// That of the frame on the wire, if it is row k's.
fn on_wire(w: Wire, k: usize) -> Instants
    ensures result_value { listed result ≡ taken_in k (sending w) }
    ensures few { result.count ≤ 1 }
{
    let mut xs = Instants {
        count: 0,
        taken: [0; MOST_FRAMES],
    };
    if let Wire::Sending(f, _) = w {
        if f.source as usize == k {
            xs.taken[0] = f.taken;
            xs.count = 1;
        }
    }
    xs
}

// The frames of row k in a record.
fn spread_ok(k: usize, period: u64, w: Wire, a: &[Frame], b: &[Frame]) -> bool
    requires a_fits { length a.now ≤ class_places }
    requires b_fits { length b.now ≤ class_places }
    ensures { result ≡ spaced period (taken_in k (sending w ++ (a.now ++ b.now))) }
{
    let xs = with_queue(with_queue(on_wire(w, k), a, k), b, k);
    all_apart(&xs.taken[..xs.count], period)
}

// No two frames of a row were taken less than its period apart, in whichever order they stand; false where rows or frames have no place.
pub fn all_spread(w: Wire, a: Queue<CLASS_PLACES>, b: Queue<CLASS_PLACES>, t: Table) -> bool
    ensures { result ≡ spread_test w a b t }
{
    let Some(rows) = t.rows.get(..t.count) else {
        return false;
    };
    let Some(ina) = a.frames.get(..a.count) else {
        return false;
    };
    let Some(inb) = b.frames.get(..b.count) else {
        return false;
    };
    rows.iter()
        .enumerate()
        .all(|(k, row)| spread_ok(k, period(*row), w, ina, inb))
}
