// The calls that an input's bytes state, and their answers.
ghost use Rattle.std.specs.Prelude.{◌*◌, ◌≤◌, ◌&&◌, ◌≡◌, leb, length};
ghost use Rattle.machine.specs.State.{view};
ghost use Rattle.texts.specs.Text.{line_size};
ghost use Rattle.runs.specs.Runs.{told, Shows, AnswersTo};

use crate::answers::make;
use crate::{Answered, Run};
use texts::lines::{Line, Stepped, step};
use texts::text::{LINE_SIZE, put_answer};

// Makes the calls of some bytes, and puts their answers into a buffer that has room for them.
fn answers(run: Run, s: &[u8], out: &mut [u8]) -> Answered
    requires { line_size * length s.now ≤ length out.old }
    ensures { Shows (told s.now (view run.port) run.line) run.port.table out.old out.new result }
{
    let mut port = run.port;
    let mut line = run.line;
    let mut at = 0;
    for b in s {
        match step(line, *b) {
            Stepped::More(l) => {
                line = l;
            }
            Stepped::Whole(call) => {
                let m = make(port, call);
                port = m.port;
                line = Line::Empty;
                at = put_answer(out, at, m.answer);
            }
            Stepped::Other => {
                return Answered {
                    run: Run {
                        port,
                        line,
                        live: false,
                    },
                    count: at,
                };
            }
        }
    }
    Answered {
        run: Run {
            port,
            line,
            live: true,
        },
        count: at,
    }
}

// Whether a run reads so many bytes: it goes on, and there is room for their answers.
fn is_read(live: bool, bytes: usize, room: usize) -> bool
    ensures { result ≡ leb (line_size * bytes) room && live }
{
    live && bytes <= room / LINE_SIZE
}

// Makes the calls of the input's next bytes, and puts their answers at the front of a buffer. Where the run has stopped, or
// the buffer is too short, nothing is read.
pub fn answer_all(run: Run, s: &[u8], out: &mut [u8]) -> Answered
    ensures { AnswersTo run s.now out.old out.new result }
{
    if !is_read(run.live, s.len(), out.len()) {
        return Answered { run, count: 0 };
    }
    answers(run, s, out)
}
