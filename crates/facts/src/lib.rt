#![tactic(auto)]

// Document 01's table of facts. The crate has no code: its one theorem is about the definitions themselves.
