// A port record from bytes.
#![tactic(auto)]

mod fits;
pub mod read;
