// Tables with a row more or less, and whether a port is quiet.
ghost use Rattle.std.specs.Prelude.{◌≡◌, ◌≤◌, ◌<◌};
ghost use Rattle.table.specs.Limits.{most_rows};
ghost use Rattle.table.specs.Rows.{contents, in_use, with_row, without_row};
ghost use Rattle.machine.specs.State.{view};
ghost use Rattle.machine.specs.Calls.{quiet};
ghost use Rattle.patches.specs.Steps.{top_of};

use machine::{Port, Wire};
use table::rows::{is_there, no_row};
use table::{Row, Table};

// Whether a number is in use.
pub fn in_use(t: Table, k: usize) -> bool
    requires { t.count ≤ most_rows }
    ensures { result ≡ in_use (contents t) k }
{
    k < t.count && is_there(t.rows[k])
}

// The table with a row at a number. Where the number is not below the count, those between are empty, whatever their places held.
pub fn with_row(t: Table, k: usize, row: Row) -> Table
    requires count_le_most_rows { t.count ≤ most_rows }
    requires k_lt_most_rows { k < most_rows }
    ensures { contents result ≡ with_row k row (contents t) }
{
    let mut u = t;
    u.rows[t.count.min(k)..k].fill(no_row());
    u.rows[k] = row;
    u.count = t.count.max(k + 1);
    u
}

// How many of the first n places there are up to the last row that is there. Stays a loop: for `rposition` no lemma gives a slice's rows from the back, and a place counted in the reversed rows is no plainer.
fn top(t: Table, n: usize) -> usize
    requires { n ≤ most_rows }
    ensures { result ≡ top_of n t }
{
    for i in (0..n).rev() {
        if is_there(t.rows[i]) {
            return i + 1;
        }
    }
    0
}

// The table without the row at a number: the number is empty, and the count is one above the highest number in use.
pub fn without_row(t: Table, k: usize) -> Table
    requires count_le_most_rows { t.count ≤ most_rows }
    requires k_lt_count { k < t.count }
    ensures { contents result ≡ without_row k (contents t) }
{
    let mut u = t;
    u.rows[k] = no_row();
    u.count = top(u, t.count);
    u
}

// No frame waits or is on the wire, and both credits are 0.
pub fn is_quiet(p: Port) -> bool
    ensures { result ≡ quiet (view p) }
{
    if 0 < p.a.count || 0 < p.b.count || 0 < p.best.count {
        return false;
    }
    matches!(p.wire, Wire::Free) && p.credita == 0 && p.creditb == 0
}
