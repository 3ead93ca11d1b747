// The few numbers of a port that byte-times read and change.
ghost use Rattle.std.specs.Prelude.{◌≡◌};
ghost use Rattle.table.specs.Rows.{contents};
ghost use Rattle.machine.specs.State.{view};
ghost use Rattle.machine.specs.Time.{shaped, owner};
ghost use Rattle.bytetime.specs.Ports.{fixed_of, sender_by, hot_of};
ghost use Rattle.advances.specs.Steps.{hot_with};

use crate::heads::head;
use bytetime::{Fixed, Hot, Sender};
use machine::{Frame, Port, Wire};
use table::rows::is_there;
use table::{Class, ROWS, Table};

// What byte-times leave alone.
pub fn fixed(p: Port) -> Fixed
    ensures { result ≡ fixed_of (view p) }
{
    Fixed {
        idlea: p.table.header.idlea,
        idleb: p.table.header.idleb,
        heada: head(p.a).size,
        headb: head(p.b).size,
        headbest: head(p.best).size,
        morea: 2 <= p.a.count,
        moreb: 2 <= p.b.count,
    }
}

fn class_sender(class: Class) -> Sender
    ensures { result ≡ sender_by (shaped class) }
{
    match class {
        Class::A => Sender::ClassA,
        Class::B => Sender::ClassB,
    }
}

// Whose a frame is: of its row's class, or best effort. (A row without a place, which no sound record has, is one of zeros, and so not there.)
fn sender(t: Table, f: Frame) -> Sender
    ensures { result ≡ sender_by (owner (contents t) f) }
{
    let k = f.source as usize;
    if k < t.count && k < ROWS && is_there(t.rows[k]) {
        class_sender(t.rows[k].class)
    } else {
        Sender::BestEffort
    }
}

fn hot_with(p: Port, sender: Sender, left: u32) -> Hot
    ensures { result ≡ hot_with p sender left }
{
    Hot {
        credita: p.credita,
        creditb: p.creditb,
        left,
        sender,
        moved: false,
        waitsa: 1 <= p.a.count,
        waitsb: 1 <= p.b.count,
        waitsbest: 1 <= p.best.count,
    }
}

// What byte-times change.
pub fn hot(p: Port) -> Hot
    ensures { result ≡ hot_of (view p) }
{
    match p.wire {
        Wire::Free => hot_with(p, Sender::Nobody, 0),
        Wire::Sending(f, left) => hot_with(p, sender(p.table, f), left),
    }
}
