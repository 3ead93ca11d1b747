// Step 1: on a free wire a head goes out.
ghost use Rattle.std.specs.Prelude.{◌≡◌};
ghost use Rattle.bytetime.specs.Bytes.{goes_a, goes_b, goes_best, on_free, started_hot};

use crate::credit::ready;
use crate::{Fixed, Hot, Sender};

// The head of A goes out. (A function for each sender: each changes fields of its own, so one for all would be a match, and no plainer.)
fn goes_a(h: Hot, x: Fixed) -> Hot
    ensures { result ≡ goes_a h x }
{
    Hot {
        left: x.heada,
        sender: Sender::ClassA,
        moved: true,
        waitsa: x.morea,
        ..h
    }
}

// The head of B goes out.
fn goes_b(h: Hot, x: Fixed) -> Hot
    ensures { result ≡ goes_b h x }
{
    Hot {
        left: x.headb,
        sender: Sender::ClassB,
        moved: true,
        waitsb: x.moreb,
        ..h
    }
}

// The best-effort head goes out.
fn goes_best(h: Hot, x: Fixed) -> Hot
    ensures { result ≡ goes_best h x }
{
    Hot {
        left: x.headbest,
        sender: Sender::BestEffort,
        moved: true,
        ..h
    }
}

// On a free wire A's head goes out if it may, or else B's, or else the best-effort one.
#[tactic(auto, unfolding(crate::specs::Bytes::on_free))]
fn on_free(h: Hot, x: Fixed) -> Hot
    ensures { result ≡ on_free h x }
{
    if ready(h.credita, h.waitsa) {
        goes_a(h, x)
    } else if ready(h.creditb, h.waitsb) {
        goes_b(h, x)
    } else if h.waitsbest {
        goes_best(h, x)
    } else {
        h
    }
}

#[tactic(auto, unfolding(crate::specs::Bytes::started_hot))]
pub fn started(h: Hot, x: Fixed) -> Hot
    ensures { result ≡ started_hot h x }
{
    if h.sender == Sender::Nobody {
        on_free(h, x)
    } else {
        h
    }
}
