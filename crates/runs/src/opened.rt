// A table file that is opened, or refused by one line.
ghost use Rattle.runs.specs.Opened.{Begins};
ghost use Rattle.runs.specs.Steps.{tried, FileTried, Says};

use crate::{Answered, Run};
use machine::After;
use offers::opening::open;
use tablefile::Unopened;
use tablefile::zeros::no_table;
use tableread::read::read;
use texts::lines::Line;
use texts::text::{Answer, put_answer};

// Whether more is read, and how many bytes the text of an outcome has.
#[derive(Clone, Copy)]
struct Said {
    live: bool,
    count: usize,
}

// A file's port, or why it is not opened. The port is handed out all the same, of a file that is misread that of zeros.
fn try_open(file: &[u8]) -> After<Result<(), Unopened>>
    ensures { FileTried file.now result }
{
    match read(file) {
        Ok(l) => {
            let o = open(l.table);
            After {
                answer: o.answer.map_err(Unopened::Refused),
                port: o.port,
            }
        }
        Err(m) => After {
            answer: Err(Unopened::Misread(m)),
            port: open(no_table()).port,
        },
    }
}

// What is said of a file: nothing, or a refusal's line.
fn say(answer: Result<(), Unopened>, out: &mut [u8]) -> Said
    ensures { Says (tried answer) out.old out.new result }
{
    match answer {
        Ok(()) => Said {
            live: true,
            count: 0,
        },
        Err(e) => {
            let count = put_answer(out, 0, Answer::Refused(e.number(), e.place() as u64));
            Said { live: false, count }
        }
    }
}

// The run on a table file's port. A file that is refused by reading or opening puts its line at the front of a buffer, and
// the run has stopped.
pub fn begin(file: &[u8], out: &mut [u8]) -> Answered
    ensures { Begins file.now out.old out.new result }
{
    let o = try_open(file);
    let said = say(o.answer, out);
    Answered {
        run: Run {
            port: o.port,
            line: Line::Empty,
            live: said.live,
        },
        count: said.count,
    }
}
