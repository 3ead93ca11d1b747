// A row held to its ranges, and the figures of a class with one row more.
ghost use Rattle.std.specs.Prelude.{◌≡◌};
ghost use Rattle.figures.specs.Parts.{passes_by};
ghost use Rattle.figures.specs.Steps.{joined, Small, Grown};

use crate::Figures;
use table::ranges::row_ok;
use table::rows::is_there;
use table::wire::{share, size};
use table::{Class, Row};

// A row is in range, or its number is empty where numbers may be.
pub fn row_passes(row: Row, gaps: bool) -> bool
    ensures { result ≡ passes_by gaps row }
{
    if is_there(row) { row_ok(row) } else { gaps }
}

// The figures with one row more, if it counts in the class.
pub fn with_row(f: Figures, class: Class, row: Row) -> Figures
    requires { Small 31 f }
    ensures value { result ≡ joined f class row }
    ensures grown { Grown f result }
{
    if class != row.class || !is_there(row) {
        return f;
    }
    let c = size(row);
    Figures {
        members: f.members + 1,
        largest: f.largest.max(c),
        total: f.total + c,
        shares: f.shares + share(row),
    }
}
