// The calls that C and other languages link: each hands its slices on. include/ithumeco.h declares them, docs/ENCODING.md has the bytes.
ghost use Rattle.replay.specs.List.{Replayed};
ghost use Rattle.saved.specs.Saved.{OpenedInto, Called};
ghost use Rattle.filebytes.specs.Files.{BoundsWritten, Rewritten};

// The port of a table file, and all calls on it. At a refusal no byte is written.
#[unsafe(no_mangle)]
pub extern "C" fn ithumeco_replay(file: &[u8], calls: &[u8], out: &mut [u8]) -> u64
    ensures { Replayed file.now calls.now out.old out.new result }
{
    replay::list::replay(file, calls, out)
}

// The fresh port of a table file as a record's bytes. At a refusal no byte is written.
#[unsafe(no_mangle)]
pub extern "C" fn ithumeco_open(file: &[u8], out: &mut [u8]) -> u64
    ensures { OpenedInto file.now out.old out.new result }
{
    saved::saved::open(file, out)
}

// One call on a record's bytes. Bytes that are no record answer 18; a refused call leaves them as they were.
#[unsafe(no_mangle)]
pub extern "C" fn ithumeco_call(saved: &mut [u8], call: &[u8], answer: &mut [u8]) -> u64
    ensures { Called saved.old saved.new call.now answer.old answer.new result }
{
    saved::saved::call(saved, call, answer)
}

// The 32 bounds of a table file, a word each. At a refusal no byte is written.
#[unsafe(no_mangle)]
pub extern "C" fn ithumeco_bounds(file: &[u8], out: &mut [u8]) -> u64
    ensures { BoundsWritten file.now out.old out.new result }
{
    filebytes::files::bounds(file, out)
}

// A table file, read, and written again in the edition of a number. At a refusal no byte is written.
#[unsafe(no_mangle)]
pub extern "C" fn ithumeco_rewrite(file: &[u8], edition: u64, out: &mut [u8]) -> u64
    ensures { Rewritten file.now edition out.old out.new result }
{
    filebytes::files::rewrite(file, edition, out)
}
