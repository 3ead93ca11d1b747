// Byte-times until a frame is reported or so many have passed.
ghost use Rattle.std.specs.Prelude.{◌≡◌, ◌≤◌};
ghost use Rattle.machine.specs.Limits.{most_steps};
ghost use Rattle.machine.specs.Record.{between};
ghost use Rattle.bytetime.specs.Bytes.{started_hot, run_hot, reach, wide, Near, near_hot, steps_of, Stretch};

use crate::credit::{Shaped, credit_after, ready};
use crate::start::started;
use crate::{Fixed, Hot, Ran, Sender};
use machine::MOST_STEPS;
use table::wire::{D, LEFT_AT_REPORT};

// How far from 0 a credit may be when a run begins.
const REACH: i64 = 2_305_843_009_213_693_952;

// One byte-time after the other, while the wire stays free or sends one frame: until it is reported, until its last byte has passed, until a class's head may go out,
// or until n have passed.
fn stretch(h: Hot, x: Fixed, n: u64) -> Ran
    requires near { Near wide h x }
    requires x_value { started_hot h x ≡ h }
    requires le_n { 1 ≤ n }
    requires n_le_most_steps { n ≤ most_steps }
    ensures { Stretch n h x result }
{
    let free = h.sender == Sender::Nobody;
    let a = Shaped {
        on: h.sender == Sender::ClassA,
        waits: h.waitsa,
        idle: x.idlea as u64,
    };
    let b = Shaped {
        on: h.sender == Sender::ClassB,
        waits: h.waitsb,
        idle: x.idleb as u64,
    };
    // A `Hot` alone, and no `Ran`: with a `Ran` here the compiler makes no loop of its own for each case of the flags, and a byte-time on a free wire takes 30 instructions and not 6 to 11.
    let mut hot = h;
    for i in 0..n {
        hot.credita = credit_after(a, hot.left, hot.credita);
        hot.creditb = credit_after(b, hot.left, hot.creditb);
        if free {
            // Two tests and no `||`, with which no such loops are made either.
            if ready(hot.credita, a.waits) {
                return Ran {
                    hot,
                    passed: i + 1,
                    ended: false,
                };
            }
            if ready(hot.creditb, b.waits) {
                return Ran {
                    hot,
                    passed: i + 1,
                    ended: false,
                };
            }
        } else {
            if hot.left <= 1 {
                // After a frame's last byte nobody has the wire. (A value of its own: changed in place, `hot` costs a byte-time of a frame 4 instructions more.)
                return Ran {
                    hot: Hot {
                        left: 0,
                        sender: Sender::Nobody,
                        ..hot
                    },
                    passed: i + 1,
                    ended: false,
                };
            }
            hot.left -= 1;
            if hot.left == LEFT_AT_REPORT {
                return Ran {
                    hot,
                    passed: i + 1,
                    ended: true,
                };
            }
        }
    }
    Ran {
        hot,
        passed: n,
        ended: false,
    }
}

// Stretch after stretch. Stays a while: a stretch itself says how many byte-times have passed.
fn steps(h: Hot, x: Fixed, n: u64) -> Ran
    requires near { Near reach h x }
    requires n_le_most_steps { n ≤ most_steps }
    ensures { result ≡ run_hot n h x }
{
    let mut r = Ran {
        hot: h,
        passed: 0,
        ended: false,
    };
    while r.passed < n && !r.ended {
        let more = stretch(started(r.hot, x), x, n - r.passed);
        r = Ran {
            passed: r.passed + more.passed,
            ..more
        };
    }
    r
}

// A credit is within reach.
fn within(credit: i64) -> bool
    ensures { result ≡ between reach reach credit }
{
    (-REACH..=REACH).contains(&credit)
}

fn near(h: Hot, x: Fixed) -> bool
    ensures { result ≡ near_hot h x }
{
    x.idlea as u64 <= D && x.idleb as u64 <= D && within(h.credita) && within(h.creditb)
}

// Byte-times on a port's numbers. Where n or the numbers are out of reach none passes.
#[tactic(auto, using(std::proofs::lemmas::Bool::Decides::nat_tests, crate::proofs::Moves::no_run), unfolding(crate::specs::Bytes::steps_of))]
pub fn run(h: Hot, x: Fixed, n: u64) -> Ran
    ensures { result ≡ run_hot (steps_of n h x) h x }
{
    if n <= MOST_STEPS && near(h, x) {
        steps(h, x, n)
    } else {
        Ran {
            hot: h,
            passed: 0,
            ended: false,
        }
    }
}
