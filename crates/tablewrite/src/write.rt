// Writing a table file.
ghost use Rattle.std.specs.Prelude.{◌≡◌, not, position, cond, [], ◌++◌, ◌+◌, ◌*◌, ◌≤◌, length, drop};
ghost use Rattle.std.proofs.lemmas.List.Edits.{sets};
ghost use Rattle.table.specs.Limits.{most_rows};
ghost use Rattle.tablefile.specs.Layout.{header_size, Period, Rate, allows};
ghost use Rattle.tablefile.specs.Writing.{bit_for, map_byte, row_bytes, rows_bytes, header_bytes, Writes};

use table::ranges::ranges;
use table::{Header, Pace, Row, Table};
use tablefile::layout::{
    BEST_PLACE, COUNT_PLACE, DEADLINE_WEIGHT, HEADER_SIZE, IDLEA_PLACE, IDLEB_PLACE, PAYLOAD_PLACE,
    PAYLOAD_WEIGHT, PERIOD_WEIGHT, RATE_WEIGHT, TAG_WEIGHT, allowed, class_bit, deadline_place,
    deadline_stands, default_deadline, default_payload, default_period, letters, payload_stands,
    period_place, period_stands, rate, rate_place, rate_stands, row_size, samples, samples_place,
    stated,
};
use tablefile::{Edition, Unwritten};

// Every byte of a file is stored here: bytes one behind the other, from a place on.
fn put(out: &mut [u8], at: usize, bytes: &[u8])
    requires { at + length bytes.now ≤ length out.old }
    ensures { out.new ≡ sets out.old at bytes.now }
{
    out[at..at + bytes.len()].copy_from_slice(bytes);
}

fn write_header(edition: Edition, h: Header, rows: &[Row], out: &mut [u8])
    requires rows_few { length rows.now ≤ most_rows }
    requires header_size_in_bounds { header_size ≤ length out.old }
    ensures { out.new ≡ sets out.old 0 (header_bytes edition (record { header = h; rows = rows.now })) }
{
    put(out, 0, &letters(edition));
    put(out, IDLEA_PLACE, &h.idlea.to_be_bytes());
    put(out, IDLEB_PLACE, &h.idleb.to_be_bytes());
    put(out, BEST_PLACE, &h.payload.to_be_bytes());
    put(out, COUNT_PLACE, &[rows.len() as u8]);
}

// A bit of a map byte: none for a field that is not stated.
fn bit_for(states: bool, bit: u8) -> u8
    ensures value { result ≡ cond states bit 0 }
    ensures small { result ≤ bit }
{
    if states { bit } else { 0 }
}

// The bit of the pace: a rated row has the rate's, and one with a period that is not the default the period's.
fn pace_bit(edition: Edition, row: Row) -> u8
    ensures value { result ≡ bit_for edition Period row + bit_for edition Rate row }
    ensures small { result ≤ 8 }
{
    match row.pace {
        Pace::Period(p) => bit_for(p != default_period(edition, row), PERIOD_WEIGHT),
        Pace::Rated(_, _) => RATE_WEIGHT,
    }
}

fn map_byte(edition: Edition, row: Row) -> u8
    ensures { result ≡ map_byte edition row }
{
    let payload = bit_for(row.payload != default_payload(edition, row), PAYLOAD_WEIGHT);
    let deadline = bit_for(
        row.deadline as u64 != default_deadline(edition, row),
        DEADLINE_WEIGHT,
    );
    let tag = bit_for(row.tagged, TAG_WEIGHT);
    payload + pace_bit(edition, row) + deadline + tag + class_bit(row.class)
}

// A field, if its bit stands.
fn put_field(out: &mut [u8], at: usize, stands: bool, bytes: &[u8])
    requires { at + length (cond stands bytes.now []) ≤ length out.old }
    ensures { out.new ≡ sets out.old at (cond stands bytes.now []) }
{
    if stands {
        put(out, at, bytes);
    }
}

// A row at the start of a buffer, and how many bytes it has. All goes by the map byte.
fn write_row(edition: Edition, row: Row, out: &mut [u8]) -> usize
    requires { length (row_bytes edition row) ≤ length out.old }
    ensures value { result ≡ length (row_bytes edition row) }
    ensures out_after { out.new ≡ row_bytes edition row ++ drop (length (row_bytes edition row)) out.old }
{
    let map = map_byte(edition, row);
    let payload = row.payload.to_be_bytes();
    let period = stated(row.pace).to_be_bytes();
    let deadline = row.deadline.to_be_bytes();
    let rate = rate(row.pace).to_be_bytes();
    let samples = [samples(row.pace)];
    put(out, 0, &[map]);
    put_field(out, PAYLOAD_PLACE, payload_stands(map), &payload);
    put_field(out, period_place(map), period_stands(map), &period);
    put_field(out, deadline_place(map), deadline_stands(map), &deadline);
    put_field(out, rate_place(map), rate_stands(map), &rate);
    put_field(out, samples_place(map), rate_stands(map), &samples);
    row_size(map)
}

// The first row that the edition does not allow.
fn barred(edition: Edition, rows: &[Row]) -> Option<usize>
    ensures { result ≡ position (λ r. not (allows edition r)) rows.now }
{
    rows.iter().position(|row| !allowed(edition, *row))
}

// The length of the rows in a file.
fn rows_size(edition: Edition, rows: &[Row]) -> usize
    requires { length rows.now ≤ most_rows }
    ensures value { result ≡ length (rows_bytes edition rows.now) }
    ensures small { result ≤ 16 * length rows.now }
{
    rows.iter()
        .map(|row| row_size(map_byte(edition, *row)))
        .sum()
}

// The rows, one after the other into the part behind what is written so far.
fn write_rows(edition: Edition, rows: &[Row], out: &mut [u8])
    requires { header_size + length (rows_bytes edition rows.now) ≤ length out.old }
    ensures { out.new ≡ sets out.old header_size (rows_bytes edition rows.now) }
{
    let mut at = HEADER_SIZE;
    for row in rows {
        at += write_row(edition, *row, &mut out[at..]);
    }
}

// A table's file in an edition into a buffer. A refusal comes before the first byte.
pub fn write(edition: Edition, t: Table, out: &mut [u8]) -> Result<usize, Unwritten>
    ensures { Writes edition t out.old out.new result }
{
    ranges(t)?;
    let rows = &t.rows[..t.count];
    if let Some(row) = barred(edition, rows) {
        return Err(Unwritten::Tagged(row));
    }
    let size = HEADER_SIZE + rows_size(edition, rows);
    if out.len() < size {
        return Err(Unwritten::TooShort);
    }
    write_header(edition, t.header, rows, out);
    write_rows(edition, rows, out);
    Ok(size)
}
