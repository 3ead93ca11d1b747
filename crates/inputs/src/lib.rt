// What the programs read: a buffer filled by reads that may each give less than was asked.
#![tactic(auto)]

ghost use Rattle.std.specs.Prelude.{◌≤◌, ◌<◌, take, length, OnOk};
ghost use Rattle.std.specs.Io.KnownBytes.{Consumes, IsAtEnd};

use std::io;
use std::io::Read;

// What was read: how many bytes, and whether the reading ended at the buffer's end or the input's, or failed.
#[derive(Drop)]
pub struct Intake {
    pub count: usize,
    pub outcome: io::Result<()>,
}

// Fills a buffer from its start, or less of it where the input ends or a read fails.
pub fn filled<R: Read>(from: &mut R, into: &mut [u8]) -> Intake
    ensures within { result.count ≤ length into.new }
    ensures bytes { Consumes (R.remaining from.old) (R.remaining from.new) (take result.count into.new) }
    ensures end { OnOk result.outcome (result.count < length into.new → IsAtEnd (R.remaining from.new)) }
{
    let mut count = 0;
    // Stays a `while`: how far a turn goes is what its read gives.
    while count < into.len() {
        match from.read(&mut into[count..]) {
            Ok(0) => {
                return Intake {
                    count,
                    outcome: Ok(()),
                };
            }
            Ok(n) => count += n,
            Err(error) => {
                return Intake {
                    count,
                    outcome: Err(error),
                };
            }
        }
    }
    Intake {
        count,
        outcome: Ok(()),
    }
}
