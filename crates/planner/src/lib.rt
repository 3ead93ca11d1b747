// Blocking, residences, bounds and acceptance of a table.
#![tactic(auto)]

ghost use Rattle.std.specs.Prelude.{◌≡◌};
ghost use Rattle.table.specs.Rows.{contents};
ghost use Rattle.table.specs.Checks.{outcome_of};
ghost use Rattle.planner.specs.Opening.{opening};
ghost use Rattle.planner.specs.Plan.{Shown};

pub mod acceptance;
mod sums;

use crate::acceptance::classes;
use table::{ROWS, Refusal, Table};

// Whether a table may be opened, or why not.
pub fn opening(t: Table) -> Result<(), Refusal>
    ensures { outcome_of result ≡ opening (contents t) }
{
    bounds(t)?;
    Ok(())
}

// The 32 bounds of a table, 0 in each place behind the last row, or why it may not be opened.
pub fn bounds(t: Table) -> Result<[u64; ROWS], Refusal>
    ensures { Shown (contents t) result }
{
    let mut out = [0u64; ROWS];
    classes(&mut out, t, false)?;
    Ok(out)
}
