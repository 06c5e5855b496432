// The pass list in lent bytes, for the five passes (01, "Five passes, D1 to G4"; the Rust's numbers.rs): an edge of it, what a pass answers.
#![tactic(auto)]

pub mod kind; // kind.rt: what an edge of the list is
pub mod record; // record.rt: an edge of the list
pub mod layout; // layout.rt: the layout of its bytes
pub mod run; // run.rt: the five passes
pub mod read; // read.rt: an edge of the list, read
pub mod write; // write.rt: an edge of the list, stored
pub mod in_turn; // in_turn.rt: the passes in turn on the list, as definitions and theorems
