// The port of a table file, and what a call that is asked for in bytes comes to.
#![tactic(auto)]

pub mod opened;
pub mod turn;

// What a call that is not refused comes to: an offer or an advance to an effect, a join or a leave to a patch.
#[derive(Clone, Copy)]
pub enum Judged {
    Effect(machine::Effect),
    Patch(machine::Patch),
}
