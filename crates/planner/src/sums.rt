// The figures of the classes: their rows taken together.
ghost use Rattle.std.specs.Prelude.{◌≤◌, length};
ghost use Rattle.table.specs.Limits.{most_rows};
ghost use Rattle.planner.specs.Steps.{TotalsOf};

use figures::sums::{row_passes, with_row};
use figures::{Both, Figures};
use table::{Class, Refusal, Row};

// One pass over the rows: their ranges, and both classes' figures.
pub fn summed(rows: &[Row], gaps: bool) -> Result<Both<Figures>, Refusal>
    requires { length rows.now ≤ most_rows }
    ensures { TotalsOf gaps rows.now result }
{
    let none = Figures {
        members: 0,
        largest: 0,
        total: 0,
        shares: 0,
    };
    let mut a = none;
    let mut b = none;
    for (i, row) in rows.iter().enumerate() {
        if !row_passes(*row, gaps) {
            return Err(Refusal::Value(i));
        }
        a = with_row(a, Class::A, *row);
        b = with_row(b, Class::B, *row);
    }
    Ok(Both { a, b })
}
