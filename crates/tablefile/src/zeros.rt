// A table of zeros, which a file that is not read stands for.
ghost use Rattle.std.specs.Prelude.{◌≡◌};
ghost use Rattle.tablefile.specs.Reading.{no_table};

use table::rows::no_row;
use table::{Header, ROWS, Table};

pub fn no_table() -> Table
    ensures { result ≡ no_table }
{
    Table {
        header: Header {
            idlea: 0,
            idleb: 0,
            payload: 0,
        },
        count: 0,
        rows: [no_row(); ROWS],
    }
}
