// What portrun makes of its table file and of its input.
#![tactic(auto)]

mod answers;
pub mod input;
pub mod opened;

// What goes on from one read to the next.
#[derive(Clone, Copy)]
pub struct Run {
    pub port: machine::Port,
    pub line: texts::lines::Line,
    pub live: bool,
}

// The run after some bytes, and how many bytes their text has.
#[derive(Clone, Copy)]
pub struct Answered {
    pub run: Run,
    pub count: usize,
}
