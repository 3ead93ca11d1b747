// The bounds of a table whose rows come as a lent list.
ghost use Rattle.std.specs.Prelude.{◌≡◌, min, ◌≤◌};
ghost use Rattle.table.specs.Limits.{most_rows};
ghost use Rattle.table.specs.Rows.{contents};
ghost use Rattle.planner.specs.Plan.{Shown};
ghost use Rattle.lent_rows.specs.Steps.{enough, no_rows, Pushed};

use table::rows::no_row;
use table::{Class, Header, Pace, ROWS, Refusal, Row, Table};

// The fewest rows that are too many.
const ENOUGH: usize = ROWS + 1;

// The table with a header and no row.
fn empty(header: Header) -> Table
    ensures { result ≡ no_rows header }
{
    let none = no_row();
    Table {
        header,
        count: 0,
        rows: [none; ROWS],
    }
}

// A table with one more row. Of the rows that find no place only the first is counted.
fn push(t: Table, class: Class, tagged: bool, payload: u16, pace: Pace, deadline: u32) -> Table
    ensures { Pushed t (record { class = class; tagged = tagged; payload = payload; pace = pace; deadline = deadline }) result }
{
    let n = t.count;
    let row = Row {
        class,
        tagged,
        payload,
        pace,
        deadline,
    };
    let mut longer = t;
    if n < ROWS {
        longer.rows[n] = row;
        longer.count = n + 1;
        return longer;
    }
    longer.count = ENOUGH;
    longer
}

// How many rows of a list are read: no more than it takes to refuse a longer one.
fn read_upto(length: usize) -> usize
    ensures { result ≡ min length enough }
{
    length.min(ENOUGH)
}

// The bounds of lent rows under a header. The values of each row are read at its place and handed on; 0 rows and more than 32 are refused.
// (Row by row: with `copy_from_slice` the edits are refused for a form alone.)
pub fn bounds(header: Header, rows: &[Row]) -> Result<[u64; ROWS], Refusal>
    ensures { Shown (record { header = header; rows = rows.now }) result }
{
    let mut t = empty(header);
    let n = read_upto(rows.len());
    for i in 0..n {
        let row = &rows[i];
        t = push(
            t,
            row.class,
            row.tagged,
            row.payload,
            row.pace,
            row.deadline,
        );
    }
    planner::bounds(t)
}

// The bounds of a table's rows, as `planner::bounds` gives them.
pub fn of_table(t: Table) -> Result<[u64; ROWS], Refusal>
    ensures { Shown (contents t) result }
{
    match t.rows.get(..t.count) {
        Some(rows) => bounds(t.header, rows),
        None => Err(Refusal::RowCount),
    }
}
