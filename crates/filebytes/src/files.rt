// The bounds of a file's table, and a file read and written again.
ghost use Rattle.std.specs.Prelude.{◌≤◌, ◌≡◌, true, false, length, MatchOption, MatchResult};
ghost use Rattle.table.specs.Rows.{contents};
ghost use Rattle.table.specs.Ranges.{within};
ghost use Rattle.table.specs.Checks.{accepted, over};
ghost use Rattle.planner.specs.Bound.{bounds};
ghost use Rattle.tablefile.specs.Reading.{unopened_by, read_file};
ghost use Rattle.words.specs.Words.{flat, word_bytes};
ghost use Rattle.codes.specs.Codes.{file_check};
ghost use Rattle.filebytes.specs.Files.{bounds_size, BoundsWritten, edition_by, Rewritten};

use codes::{code, of_misread, of_unopened, of_writing};
use table::ROWS;
use tablefile::{Edition, Unopened};
use tableread::read::read;
use tablewrite::write::write;
use words::words::put_words;

// The bytes of a word for each row.
const BOUNDS_SIZE: usize = 256;

// A word for each row at the front of a buffer.
fn put_bounds(out: &mut [u8], bounds: [u64; ROWS])
    requires { bounds_size ≤ length out.old }
    ensures { out.new ≡ over accepted (flat word_bytes bounds) out.old }
{
    put_words(out, 0, &bounds);
}

// The 32 bounds of a table file, or why it is not opened.
fn file_bounds(file: &[u8]) -> Result<[u64; ROWS], Unopened>
    ensures { MatchResult result (λ bs. (file_check file.now ≡ accepted) × (bs ≡ bounds (contents (read_file file.now).table)))
        (λ e. file_check file.now ≡ unopened_by e) }
{
    let l = read(file)?;
    let bounds = planner::bounds(l.table)?;
    Ok(bounds)
}

// The 32 bounds of a table file, a word each. At a refusal no byte is written.
// (102, 103 and 104 are the C interface's own numbers.)
pub fn bounds(file: &[u8], out: &mut [u8]) -> u64
    ensures { BoundsWritten file.now out.old out.new result }
{
    if out.len() < BOUNDS_SIZE {
        return code(103, 0);
    }
    match file_bounds(file) {
        Ok(bounds) => {
            put_bounds(out, bounds);
            0
        }
        Err(e) => of_unopened(e),
    }
}

// The edition of a number, if there is one.
// (No plainer as `TryFrom<u64>`: the type is tablefile's, its numbers 1 and 2 are the C interface's alone, and a failure has nothing to say.)
fn edition_by(number: u64) -> Option<Edition>
    ensures { MatchOption result (within 1 2 number ≡ false)
        (λ e. (within 1 2 number ≡ true) × (e ≡ edition_by number)) }
{
    match number {
        1 => Some(Edition::Avb1),
        2 => Some(Edition::Avb2),
        _ => None,
    }
}

// A table file of either edition, read, and written again in the edition of a number. At a refusal no byte is written.
pub fn rewrite(file: &[u8], number: u64, out: &mut [u8]) -> u64
    ensures { Rewritten file.now number out.old out.new result }
{
    let Some(edition) = edition_by(number) else {
        return code(104, 0);
    };
    match read(file) {
        Ok(l) => of_writing(write(edition, l.table, out)),
        Err(m) => of_misread(m),
    }
}
