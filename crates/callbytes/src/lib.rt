// Calls and answers as bytes.
#![tactic(auto)]

pub mod answers;
pub mod calls;

// What bytes ask for: an offer to a row (row, payload), an offer of best effort, an advance, a row to join at a number, the row at a number to leave.
#[derive(Clone, Copy)]
pub enum Asked {
    Offer(u64, u64),
    OfferBest(u64),
    Advance(u64),
    Join(u64, table::Row),
    Leave(u64),
}
