// Reads a table file on standard input and prints its sheet, or one line if it is refused.
#![tactic(auto)]

use inputs::filled;
use sheets::sheet::put_sheet;
use std::io;
use std::io::Write;

// A table file has at most 399 bytes, so a longer input is refused by what these bytes hold. Where a read fails, the
// input ends there.
fn main(rt: HostRuntime) -> io::Result<()> {
    let mut input = [0u8; 512];
    let read = filled(&mut rt.stdin(), &mut input).count;
    let mut out = [0u8; 4096];
    let used = put_sheet(&mut out, &input[..read]);
    rt.stdout().write_all(&out[..used])
}
