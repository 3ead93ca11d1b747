// A port kept as bytes between calls.
ghost use Rattle.std.specs.Prelude.{◌≡◌, ◌≤◌, length};
ghost use Rattle.recordbytes.specs.Layout.{record_size};
ghost use Rattle.saved.specs.Saved.{cleared, CarriedOver, OpenedInto, Called};

use callbytes::answers::{ANSWER_SIZE, write_reply};
use callbytes::calls::read_call;
use codes::{code, of_unopened};
use machine::{Denial, Port};
use patches::patches::without_last;
use record::check::is_sound;
use recordbytes::RECORD_SIZE;
use recordchange::change::change_record;
use recordread::read::read_record;
use recordwrite::write::{write_patch, write_record};
use turns::Judged;
use turns::opened::open_file;
use turns::turn::{passed, turn};

// Zeros in as many bytes as a record has.
fn clear(out: &mut [u8])
    requires { record_size ≤ length out.old }
    ensures { out.new ≡ cleared out.old }
{
    out[..RECORD_SIZE].fill(0);
}

// The fresh port of a table file as a record's bytes. At a refusal no byte is written.
// (102, 103 and 104 are the C interface's own numbers.)
pub fn open(file: &[u8], out: &mut [u8]) -> u64
    ensures { OpenedInto file.now out.old out.new result }
{
    if out.len() < RECORD_SIZE {
        return code(103, 0);
    }
    match open_file(file) {
        Ok(p) => {
            clear(out);
            write_record(out, p);
            0
        }
        Err(e) => of_unopened(e),
    }
}

// What a call has come to, carried out on the bytes of its port's record.
fn carry(saved: &mut [u8], p: Port, j: Judged)
    ensures { CarriedOver p j saved.old saved.new }
{
    match j {
        Judged::Effect(e) => change_record(saved, e),
        Judged::Patch(x) => {
            let last = without_last(p.last, x.cleared);
            write_patch(saved, x.table, last, x.bounds);
        }
    }
}

// One call on a record's bytes. Bytes that are no record answer 18; a refused call leaves them as they were.
pub fn call(saved: &mut [u8], call: &[u8], answer: &mut [u8]) -> u64
    ensures { Called saved.old saved.new call.now answer.old answer.new result }
{
    let Some(asked) = read_call(call) else {
        return code(102, 0);
    };
    if answer.len() < ANSWER_SIZE {
        return code(103, 0);
    }
    let Some(p) = read_record(saved) else {
        write_reply(answer, Err(Denial::Broken));
        return 0;
    };
    match turn(p, is_sound(&p), asked) {
        Ok(j) => {
            write_reply(answer, Ok(passed(j)));
            carry(saved, p, j);
        }
        Err(d) => write_reply(answer, Err(d)),
    }
    0
}
