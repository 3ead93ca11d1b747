// Opening a port.
ghost use Rattle.std.specs.Prelude.{◌≡◌};
ghost use Rattle.table.specs.Rows.{contents};
ghost use Rattle.planner.specs.Opening.{opening};
ghost use Rattle.planner.specs.Plan.{bounds_at};
ghost use Rattle.machine.specs.State.{view, fresh};
ghost use Rattle.machine.specs.Calls.{Opened};

use machine::{After, BEST_PLACES, Frame, Port, Queue, Wire};
use planner::bounds;
use table::{CLASS_PLACES, ROWS, Refusal, Table};

// The port of a table before any call: clock and credits 0, no frames, no instants.
fn fresh_port(table: Table, bounds: [u64; ROWS]) -> Port
    requires { bounds ≡ bounds_at (opening (contents table)) (contents table) }
    ensures result_value { view result ≡ fresh (contents table) }
    ensures table_value { result.table ≡ table }
{
    let zero = Frame {
        source: 0,
        size: 0,
        taken: 0,
    };
    let empty = Queue {
        count: 0,
        frames: [zero; CLASS_PLACES],
    };
    let best = Queue {
        count: 0,
        frames: [zero; BEST_PLACES],
    };
    Port {
        table,
        bounds,
        clock: 0,
        credita: 0,
        creditb: 0,
        a: empty,
        b: empty,
        best,
        last: [None; ROWS],
        wire: Wire::Free,
    }
}

// The planner's verdict on a table, and its fresh port, which keeps the bounds, zeros at a refusal. Then every call on the port is refused too.
pub fn open(t: Table) -> After<Result<(), Refusal>>
    ensures { Opened t result }
{
    match bounds(t) {
        Ok(bounds) => After {
            answer: Ok(()),
            port: fresh_port(t, bounds),
        },
        Err(r) => After {
            answer: Err(r),
            port: fresh_port(t, [0; ROWS]),
        },
    }
}
