// A table file that is opened.
ghost use Rattle.turns.specs.Turns.{FileOpened};

use machine::Port;
use offers::opening::open;
use tablefile::Unopened;
use tableread::read::read;

// The fresh port of a table file, or why it is not opened.
pub fn open_file(file: &[u8]) -> Result<Port, Unopened>
    ensures { FileOpened file.now result }
{
    let l = read(file)?;
    let o = open(l.table);
    o.answer?;
    Ok(o.port)
}
