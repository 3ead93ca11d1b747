// A class's credit in a byte-time: steps 2 and 4.
ghost use Rattle.std.specs.Prelude.{◌≡◌, ◌≤◌, ◌-◌, ◌&&◌, leb};
ghost use Rattle.std.specs.Int.Signed.{mag};
ghost use Rattle.table.specs.Limits.{D};
ghost use Rattle.bytetime.specs.Bytes.{far, settled_with, credit_after, ready_by};

use table::wire::D;

// Step 4: a class with no frame waiting or on the wire has no credit above 0.
fn lowered(still: bool, waits: bool, credit: i64) -> i64
    ensures { result ≡ settled_with still waits credit }
{
    if still || waits {
        credit
    } else {
        credit.min(0)
    }
}

// A class while a frame is sent or the wire is free: whether the frame on the wire is its own, whether it has one waiting, and its idle slope. (A u64, widened once and not in each byte-time.)
#[derive(Clone, Copy)]
pub struct Shaped {
    pub on: bool,
    pub waits: bool,
    pub idle: u64,
}

// Its credit after a byte-time, by the bytes left before it of the frame on the wire.
pub fn credit_after(c: Shaped, left: u32, credit: i64) -> i64
    requires credit_bound { mag credit ≤ far }
    requires idle_bound { c.idle ≤ D }
    ensures { result ≡ credit_after c.on (c.on && leb 2 left) c.waits c.idle (D - c.idle) credit }
{
    if c.on {
        lowered(1 < left, c.waits, credit - (D - c.idle) as i64)
    } else {
        lowered(false, c.waits, credit + c.idle as i64)
    }
}

// A class's head may go out: it has one, and credit at least 0.
pub fn ready(credit: i64, waits: bool) -> bool
    ensures { result ≡ ready_by credit waits }
{
    waits && 0 <= credit
}
