// Table files as bytes: the bounds of a file's table, and a file read and written again.
#![tactic(auto)]

pub mod files;
