// The sheet of a table file, put into a buffer.
ghost use Rattle.std.specs.Prelude.{◌++◌, ◌≡◌, ◌+◌, ◌≤◌, length, MatchResult};
ghost use Rattle.table.specs.Rows.{contents};
ghost use Rattle.table.specs.Checks.{accepted};
ghost use Rattle.planner.specs.Plan.{BoundsOf};
ghost use Rattle.tablefile.specs.Reading.{unopened_number, unopened_place, unopened_by, read_file};
ghost use Rattle.codes.specs.Codes.{file_check};
ghost use Rattle.texts.specs.Text.{ascii, decimal, line_of, used_by, put_at, Put};
ghost use Rattle.sheets.specs.Sheet.{letter_of, row_line, text_by, sheet_text, most_text};

use lent_rows::rows::of_table;
use table::wire::{period, size};
use table::{Class, ROWS, Row, Table};
use tablefile::Unopened;
use texts::text::{Answer, put, put_answer, put_number};

// No file's text is longer than this.
const MOST_TEXT: usize = 4096;

// A row's number, a space and its class letter.
fn put_name(out: &mut [u8], at: usize, number: u64, class: Class) -> usize
    requires { at + 22 ≤ length out.old }
    ensures { Put 22 (decimal number ++ (ascii " " ++ letter_of class)) out.old at out.new result }
{
    let next = put_number(out, at, number);
    let letter = match class {
        Class::A => b" A",
        Class::B => b" B",
    };
    put(out, next, letter)
}

// A space and a number.
fn put_field(out: &mut [u8], at: usize, n: u64) -> usize
    requires { at + 21 ≤ length out.old }
    ensures { Put 21 (ascii " " ++ decimal n) out.old at out.new result }
{
    let next = put(out, at, b" ");
    put_number(out, next, n)
}

// A row's line. It has at most 107 bytes.
fn put_row(out: &mut [u8], at: usize, number: u64, row: Row, bound: u64) -> usize
    requires { at + 107 ≤ length out.old }
    ensures { Put 107 (row_line number row bound) out.old at out.new result }
{
    let name = put_name(out, at, number, row.class);
    let wire = put_field(out, name, size(row));
    let first = put_field(out, wire, period(row));
    let second = put_field(out, first, row.deadline as u64);
    let third = put_field(out, second, bound);
    put(out, third, b"\n")
}

// A table that may be opened, and its bounds.
#[derive(Clone, Copy)]
struct Sheet {
    table: Table,
    bounds: [u64; ROWS],
    ghost shown: { BoundsOf (contents table) bounds },
}

// The sheet of an accepted table.
fn put_table(out: &mut [u8], t: Table, bounds: [u64; ROWS]) -> usize
    requires most_text_in_bounds { most_text ≤ length out.old }
    requires shown { BoundsOf (contents t) bounds }
    ensures { Put most_text (text_by accepted (contents t)) out.old 0 out.new result }
{
    let rows = &t.rows[..t.count];
    let mut at = put(out, 0, b"row class wire period deadline bound\n");
    for (i, row) in rows.iter().enumerate() {
        at = put_row(out, at, i as u64, *row, bounds[i]);
    }
    at
}

// A refusal's line.
fn put_refusal(out: &mut [u8], e: Unopened) -> usize
    requires { most_text ≤ length out.old }
    ensures { Put most_text (line_of (Answer.Refused (unopened_number e) (unopened_place e))) out.old 0 out.new result }
{
    put_answer(out, 0, Answer::Refused(e.number(), e.place() as u64))
}

// A file's table and its bounds, or why it is not opened. Bounds are asked for with the rows lent.
fn sheet_of(file: &[u8]) -> Result<Sheet, Unopened>
    ensures { MatchResult result (λ s. (s.table ≡ (read_file file.now).table) × (file_check file.now ≡ accepted))
        (λ e. file_check file.now ≡ unopened_by e) }
{
    let l = tableread::read::read(file)?;
    let table = l.table;
    let bounds = of_table(table)?;
    Ok(Sheet { table, bounds })
}

// A file's text: reading's refusal, or else opening's, or else the sheet.
fn put_text(out: &mut [u8], file: &[u8]) -> usize
    requires { most_text ≤ length out.old }
    ensures { Put most_text (sheet_text file.now) out.old 0 out.new result }
{
    match sheet_of(file) {
        Ok(sheet) => put_table(out, sheet.table, sheet.bounds),
        Err(e) => put_refusal(out, e),
    }
}

// The text of a table file's sheet, or of its refusal, put at the front of a buffer as a text is.
pub fn put_sheet(out: &mut [u8], file: &[u8]) -> usize
    ensures value { result ≡ used_by (sheet_text file.now) 0 out.old }
    ensures out_after { out.new ≡ put_at (sheet_text file.now) 0 out.old }
{
    let mut text = [0u8; MOST_TEXT];
    let n = put_text(&mut text, file);
    put(out, 0, &text[..n])
}
