// An outcome as one number, for callers from other languages.
#![tactic(auto)]

ghost use Rattle.std.specs.Prelude.{min, ◌≡◌};
ghost use Rattle.table.specs.Checks as tables;
ghost use Rattle.tablefile.specs.Reading as files;
ghost use Rattle.tablefile.specs.Writing as writes;
ghost use Rattle.codes.specs.Codes.{most_place, code_of, length_code};

use tablefile::numbers::number;
use tablefile::{Misread, Unopened, Unwritten};

// The largest place that a code can tell.
const MOST_PLACE: u64 = u32::MAX as u64;

fn capped(place: usize) -> u64
    ensures { result ≡ min place most_place }
{
    (place as u64).min(MOST_PLACE)
}

// A refusal.
pub fn code(number: u8, place: usize) -> u64
    ensures { result ≡ code_of (tables.refused number place) }
{
    u64::from(number) + 256 * capped(place)
}

// What a file answers that is misread.
pub fn of_misread(m: Misread) -> u64
    ensures { result ≡ code_of (files.refusal_of m) }
{
    code(number(m.fault) as u8, m.place)
}

// What a file answers that is not opened.
pub fn of_unopened(e: Unopened) -> u64
    ensures { result ≡ code_of (files.unopened_by e) }
{
    code(e.number() as u8, e.place())
}

// What a file answers that is not written.
fn of_unwritten(e: Unwritten) -> u64
    ensures { result ≡ code_of (writes.refusal_of e) }
{
    match e {
        Unwritten::TooShort => code(17, 0),
        Unwritten::Tagged(row) => code(23, row),
        Unwritten::Refused(r) => of_unopened(Unopened::Refused(r)),
    }
}

// What writing a file answers: the refusal, or the file's length in a refusal's place.
pub fn of_writing(written: Result<usize, Unwritten>) -> u64
    ensures { result ≡ length_code (writes.outcome_of written) (writes.length_of written) }
{
    match written {
        Ok(size) => code(0, size),
        Err(e) => of_unwritten(e),
    }
}
