// The frames of the rows in a record, each row's together: how many there are, when the newest was taken, and whether they stand in the order in which calls leave them.
#![tactic(auto)]

pub mod rows;
