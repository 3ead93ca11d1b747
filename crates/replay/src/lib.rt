// A list of calls, as bytes, on the port of a table file.
#![tactic(auto)]

pub mod list;

// Why a list of calls is not replayed: it is no whole number of calls, the call of a number can't be read, or its answers find no room.
#[derive(Clone, Copy)]
pub enum Fault {
    Odd,
    Unreadable(usize),
    Room,
}
