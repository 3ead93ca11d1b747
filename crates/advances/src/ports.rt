// What byte-times leave: the frame on the wire, the wire, the queue whose head went out, and the frame that was reported.
ghost use Rattle.std.specs.Prelude.{◌≡◌, cond};
ghost use Rattle.machine.specs.State.{view};
ghost use Rattle.bytetime.specs.Ports.{head_for, frame_on, frame_of, wire_by};
ghost use Rattle.advances.specs.Steps.{left_by};

use crate::heads::{head, no_frame};
use bytetime::{Hot, Sender};
use machine::{Change, Frame, Port, Wire};

// The head of a sender's queue.
fn head_for(p: Port, who: Sender) -> Frame
    ensures { result ≡ head_for who (view p) }
{
    match who {
        Sender::Nobody => no_frame(),
        Sender::ClassA => head(p.a),
        Sender::ClassB => head(p.b),
        Sender::BestEffort => head(p.best),
    }
}

fn frame_on(w: Wire) -> Frame
    ensures { result ≡ frame_on w }
{
    match w {
        Wire::Free => no_frame(),
        Wire::Sending(f, _) => f,
    }
}

// The frame on the wire: a queue's head if it has moved, or else the one that was there.
pub fn frame_of(p: Port, h: Hot) -> Frame
    ensures { result ≡ frame_of (view p) h }
{
    if h.moved {
        head_for(p, h.sender)
    } else {
        frame_on(p.wire)
    }
}

// The wire: free if nobody has it.
pub fn wire_now(who: Sender, f: Frame, left: u32) -> Wire
    ensures { result ≡ wire_by who f left }
{
    if who == Sender::Nobody {
        Wire::Free
    } else {
        Wire::Sending(f, left)
    }
}

// The frame that was reported ended, if one was.
pub fn ended(has: bool, f: Frame) -> Option<Frame>
    ensures { result ≡ cond has (Some f) None }
{
    has.then_some(f)
}

// The queue whose head went out, if one has.
pub fn left(moved: bool, who: Sender) -> Option<Change>
    ensures { result ≡ left_by moved who }
{
    if !moved {
        return None;
    }
    match who {
        Sender::Nobody => None,
        Sender::ClassA => Some(Change::LeftA),
        Sender::ClassB => Some(Change::LeftB),
        Sender::BestEffort => Some(Change::LeftBest),
    }
}
