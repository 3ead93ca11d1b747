// Reading a table file.
ghost use Rattle.std.specs.Prelude.{[], ◌≡◌, ◌+◌, ◌≤◌, leb, length, get_or};
ghost use Rattle.table.specs.Checks.{accepted, unless, first};
ghost use Rattle.tablefile.specs.Layout.{header_size, value_at, Payload, Period, Deadline, Rate, Samples};
ghost use Rattle.tablefile.specs.Reading.{number_of, outcome_of, opens, header_of, header, map_of, with_payload, pace_from, paced_from, row_from};
ghost use Rattle.tablefile.specs.Reading.{presence, present, judgement, judged, field_checks, map_checks, row, table_of, read_as, edition_of, read_file, Reads};
ghost use Rattle.tableread.specs.Results.{loaded};

use table::ranges::{MOST_PAYLOAD, MOST_SLOPE, deadline_ok, period_ok, rate_ok, samples_ok};
use table::rows::no_row;
use table::{Header, Pace, ROWS, Row, Table};
use tablefile::layout::{
    BEST_PLACE, COUNT_PLACE, DEADLINE_WIDTH, HEADER_SIZE, IDLEA_PLACE, IDLEB_PLACE, PAYLOAD_PLACE,
    PAYLOAD_WIDTH, PERIOD_WIDTH, RATE_WIDTH, SAMPLES_WIDTH, class_of, deadline_place,
    deadline_stands, default_deadline, default_payload, default_period, letters, payload_stands,
    period_place, period_stands, rate, rate_place, rate_stands, reserved_clear, row_size, samples,
    samples_place, stated, tagged_of, two_paces,
};
use tablefile::{Edition, Fault, Loaded, Misread};

// A byte, or 0 behind the last.
fn byte(s: &[u8], at: usize) -> u8
    ensures { result ≡ get_or s.now at 0 }
{
    s.get(at).copied().unwrap_or(0)
}

fn u16_at(s: &[u8], at: usize) -> u16
    requires { at ≤ header_size }
    ensures { result ≡ value_at 2 s.now at }
{
    u16::from_be_bytes([byte(s, at), byte(s, at + 1)])
}

fn u32_at(s: &[u8], at: usize) -> u32
    requires { at ≤ header_size }
    ensures { result ≡ value_at 4 s.now at }
{
    u32::from_be_bytes([
        byte(s, at),
        byte(s, at + 1),
        byte(s, at + 2),
        byte(s, at + 3),
    ])
}

// The payload where its bit stands, and else its default in the row before it. `s` starts at the row's map byte.
fn with_payload(edition: Edition, s: &[u8], before: Row) -> Row
    ensures { result ≡ with_payload edition s.now before }
{
    let payload = if payload_stands(byte(s, 0)) {
        u16_at(s, PAYLOAD_PLACE)
    } else {
        default_payload(edition, before)
    };
    Row { payload, ..before }
}

// A rate and samples where their bit stands, and else a period.
fn pace_from(edition: Edition, s: &[u8], before: Row) -> Pace
    ensures { result ≡ pace_from edition s.now before }
{
    let map = byte(s, 0);
    if rate_stands(map) {
        Pace::Rated(byte(s, samples_place(map)), u32_at(s, rate_place(map)))
    } else if period_stands(map) {
        Pace::Period(u32_at(s, period_place(map)))
    } else {
        Pace::Period(default_period(edition, before))
    }
}

// A row but for its deadline, whose default goes by the pace. It says nothing of what is wrong with the row.
fn paced_from(edition: Edition, s: &[u8]) -> Row
    ensures { result ≡ paced_from edition s.now }
{
    let map = byte(s, 0);
    let blank = Row {
        class: class_of(map),
        tagged: tagged_of(edition, map),
        ..no_row()
    };
    let first = with_payload(edition, s, blank);
    Row {
        pace: pace_from(edition, s, first),
        ..first
    }
}

// A fault where a test fails.
fn check(ok: bool, fault: Fault, place: usize) -> Result<(), Misread>
    ensures { outcome_of result ≡ unless ok (number_of fault) place }
{
    if ok {
        Ok(())
    } else {
        Err(Misread { fault, place })
    }
}

// A row's part of the file: its bytes from the map byte on, the place of that byte in the file, the map byte, and the row but for its deadline.
#[derive(Clone, Copy)]
struct Part<'a> {
    edition: Edition,
    bytes: &'a [u8],
    at: usize,
    map: u8,
    paced: Row,
    ghost mapped: { map ≡ map_of bytes.now },
    ghost read: { paced ≡ paced_from edition bytes.now },
    ghost places_fit: { at + 15 ≤ 18446744073709551615 },
}

impl<'a> Part<'a> {
    // The last field starts at most 15 bytes behind the map byte.
    fn new(edition: Edition, bytes: &'a [u8], at: usize) -> Part<'a>
        requires { at + 15 ≤ 18446744073709551615 }
        ensures edition { result.edition ≡ edition }
        ensures bytes { result.bytes.now ≡ bytes.now }
        ensures at { result.at ≡ at }
    {
        Part {
            edition,
            bytes,
            at,
            map: byte(bytes, 0),
            paced: paced_from(edition, bytes),
        }
    }

    // Whether a field whose bit stands is there.
    fn presence(self, stands: bool, place: usize, width: usize) -> Result<(), Misread>
        requires place_low { place ≤ 15 }
        requires width_low { width ≤ 4 }
        ensures { outcome_of result ≡ presence stands (leb (place + width) (length self.entry.bytes.now)) (self.entry.at + place) }
    {
        if !stands {
            return Ok(());
        }
        let inside = place + width <= self.bytes.len();
        check(inside, Fault::CutShort, self.at + place)
    }

    // What is wrong with what a field says whose bit stands: its range, and then its default.
    fn judgement(self, stands: bool, ok: bool, usual: bool, place: usize) -> Result<(), Misread>
        requires { place ≤ 15 }
        ensures { outcome_of result ≡ judgement stands ok usual (self.entry.at + place) }
    {
        if !stands {
            return Ok(());
        }
        check(ok, Fault::OutOfRange, self.at + place)?;
        check(!usual, Fault::StatesDefault, self.at + place)
    }

    fn map_fault(self) -> Result<(), Misread>
        ensures { outcome_of result ≡ first (map_checks self.entry.edition self.entry.bytes.now self.entry.at) }
    {
        let clear = reserved_clear(self.edition, self.map);
        check(1 <= self.bytes.len(), Fault::CutShort, self.at)?;
        check(clear, Fault::MapBit, self.at)?;
        check(!two_paces(self.map), Fault::TwoPaces, self.at)
    }

    fn payload_fault(self) -> Result<(), Misread>
        ensures { outcome_of result ≡ first (field_checks self.entry.edition Payload self.entry.bytes.now self.entry.at) }
    {
        let stands = payload_stands(self.map);
        let payload = self.paced.payload;
        let usual = payload == default_payload(self.edition, self.paced);
        self.presence(stands, PAYLOAD_PLACE, PAYLOAD_WIDTH)?;
        self.judgement(stands, payload <= MOST_PAYLOAD, usual, PAYLOAD_PLACE)
    }

    fn period_fault(self) -> Result<(), Misread>
        ensures { outcome_of result ≡ first (field_checks self.entry.edition Period self.entry.bytes.now self.entry.at) }
    {
        let stands = period_stands(self.map);
        let place = period_place(self.map);
        let period = stated(self.paced.pace);
        let usual = period == default_period(self.edition, self.paced);
        self.presence(stands, place, PERIOD_WIDTH)?;
        self.judgement(stands, period_ok(period), usual, place)
    }

    // Rate and samples share a bit, and have no default.
    fn rate_fault(self) -> Result<(), Misread>
        ensures { outcome_of result ≡ first (field_checks self.entry.edition Rate self.entry.bytes.now self.entry.at) }
    {
        let stands = rate_stands(self.map);
        let place = rate_place(self.map);
        self.presence(stands, place, RATE_WIDTH)?;
        self.judgement(stands, rate_ok(rate(self.paced.pace)), false, place)
    }

    fn samples_fault(self) -> Result<(), Misread>
        ensures { outcome_of result ≡ first (field_checks self.entry.edition Samples self.entry.bytes.now self.entry.at) }
    {
        let stands = rate_stands(self.map);
        let place = samples_place(self.map);
        self.presence(stands, place, SAMPLES_WIDTH)?;
        self.judgement(stands, samples_ok(samples(self.paced.pace)), false, place)
    }

    // Where the deadline stands it is only asked for. Its range and default are judged behind all other fields.
    fn deadline_absent(self) -> Result<(), Misread>
        ensures { outcome_of result ≡ present Deadline self.entry.bytes.now self.entry.at }
    {
        self.presence(
            deadline_stands(self.map),
            deadline_place(self.map),
            DEADLINE_WIDTH,
        )
    }

    fn deadline_fault(self) -> Result<(), Misread>
        ensures { outcome_of result ≡ judged self.entry.edition Deadline self.entry.bytes.now self.entry.at }
    {
        let place = deadline_place(self.map);
        let deadline = u32_at(self.bytes, place);
        let usual = deadline as u64 == default_deadline(self.edition, self.paced);
        self.judgement(
            deadline_stands(self.map),
            deadline_ok(deadline),
            usual,
            place,
        )
    }

    // The first thing that is wrong with the row.
    fn fault(self) -> Result<(), Misread>
        ensures { outcome_of result ≡ row self.entry.edition self.entry.bytes.now self.entry.at }
    {
        self.map_fault()?;
        self.payload_fault()?;
        self.period_fault()?;
        self.deadline_absent()?;
        self.rate_fault()?;
        self.samples_fault()?;
        self.deadline_fault()
    }

    // The row, where nothing is wrong with it: its period then fits a deadline.
    fn row(self) -> Row
        requires { row self.edition self.bytes.now self.at ≡ accepted }
        ensures { result ≡ row_from self.entry.edition self.entry.bytes.now }
    {
        let deadline = if deadline_stands(self.map) {
            u32_at(self.bytes, deadline_place(self.map))
        } else {
            default_deadline(self.edition, self.paced) as u32
        };
        Row {
            deadline,
            ..self.paced
        }
    }
}

// Whether a file opens with an edition's letters.
fn opens_as(edition: Edition, s: &[u8]) -> bool
    ensures { result ≡ opens edition s.now }
{
    s.starts_with(&letters(edition))
}

// The edition that the letters name; AVB1, which refuses them, where they name none.
pub fn edition_of(s: &[u8]) -> Edition
    ensures { result ≡ edition_of s.now }
{
    if opens_as(Edition::Avb2, s) {
        Edition::Avb2
    } else {
        Edition::Avb1
    }
}

// The header's values.
fn header_of(s: &[u8]) -> Header
    ensures { result ≡ header_of s.now }
{
    Header {
        idlea: u32_at(s, IDLEA_PLACE),
        idleb: u32_at(s, IDLEB_PLACE),
        payload: u16_at(s, BEST_PLACE),
    }
}

fn read_header(edition: Edition, s: &[u8]) -> Result<(), Misread>
    ensures { outcome_of result ≡ header edition s.now }
{
    let h = header_of(s);
    let count = byte(s, COUNT_PLACE) as usize;
    check(HEADER_SIZE <= s.len(), Fault::CutShort, 0)?;
    check(opens_as(edition, s), Fault::Letters, 0)?;
    check(h.idlea <= MOST_SLOPE, Fault::OutOfRange, IDLEA_PLACE)?;
    check(h.idleb <= MOST_SLOPE, Fault::OutOfRange, IDLEB_PLACE)?;
    check(h.payload <= MOST_PAYLOAD, Fault::OutOfRange, BEST_PLACE)?;
    check((1..=ROWS).contains(&count), Fault::RowCount, COUNT_PLACE)
}

// The header's values, with zeros for rows.
fn header_table(s: &[u8]) -> Table
    ensures { result ≡ table_of s.now [] }
{
    Table {
        header: header_of(s),
        count: byte(s, COUNT_PLACE) as usize,
        rows: [no_row(); ROWS],
    }
}

// The rows, one behind the other from behind the header on, into the table of the header's values.
fn read_rows(edition: Edition, s: &[u8], start: Table) -> Result<Table, Misread>
    requires s_value { header edition s.now ≡ accepted }
    requires start_value { start ≡ table_of s.now [] }
    ensures { Reads (read_as edition s.now) (loaded edition result) }
{
    let mut table = start;
    let mut at = HEADER_SIZE;
    for i in 0..start.count {
        let part = Part::new(edition, &s[at..], at);
        part.fault()?;
        table.rows[i] = part.row();
        at += row_size(part.map);
    }
    check(s.len() <= at, Fault::Trailing, at)?;
    Ok(table)
}

// A file's table in an edition, or the first refusal and its place.
fn read_as(edition: Edition, s: &[u8]) -> Result<Table, Misread>
    ensures { Reads (read_as edition s.now) (loaded edition result) }
{
    read_header(edition, s)?;
    read_rows(edition, s, header_table(s))
}

// A file's edition and table, or the first refusal and its place.
pub fn read(s: &[u8]) -> Result<Loaded, Misread>
    ensures { Reads (read_file s.now) result }
{
    let edition = edition_of(s);
    let table = read_as(edition, s)?;
    Ok(Loaded { edition, table })
}
