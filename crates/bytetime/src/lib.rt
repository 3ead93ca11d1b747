// Byte-times, one after the other, on the few numbers that they change.
#![tactic(auto)]

mod credit;
pub mod run;
mod start;

// Whose frame is on the wire. (Four cases and no Option: the definitions of byte-times go by these, `sender_by`.)
#[derive(Clone, Copy, PartialEq, Eq)]
pub enum Sender {
    Nobody,
    ClassA,
    ClassB,
    BestEffort,
}

// What byte-times change: the credits, the bytes left of the frame on the wire and whose it is; whether it left its queue in these byte-times; which queues
// have a frame waiting. (`moved` stays a flag, of which `run_hot` speaks: no value stands beside it.)
#[derive(Clone, Copy)]
pub struct Hot {
    pub credita: i64,
    pub creditb: i64,
    pub left: u32,
    pub sender: Sender,
    pub moved: bool,
    pub waitsa: bool,
    pub waitsb: bool,
    pub waitsbest: bool,
}

// What they leave alone: the idle slopes, the sizes of the heads of the queues, and whether A and B have a frame behind their head.
#[derive(Clone, Copy)]
pub struct Fixed {
    pub idlea: u32,
    pub idleb: u32,
    pub heada: u32,
    pub headb: u32,
    pub headbest: u32,
    pub morea: bool,
    pub moreb: bool,
}

// What byte-times leave: the numbers, how many have passed, and whether a frame was reported ended in the last of them. (`ended` stays a flag, of which `run_hot` speaks: no value stands beside it.)
#[derive(Clone, Copy)]
pub struct Ran {
    pub hot: Hot,
    pub passed: u64,
    pub ended: bool,
}
