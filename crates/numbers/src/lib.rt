// The whole call as definitions (the Rust's lattice/numbers.rs): fractions and percentages, signs, separators, the fallback, the checks 1 to 8, demand 3 for it.
#![tactic(auto)]

pub mod stages; // stages.rt: what the stages share (definitions and laws)
