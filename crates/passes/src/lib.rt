// From characters to edges, and the five passes, D1 to G4 (01, "Five passes, D1 to G4"), for any table: definitions in specs/. The only code is a fraction in lowest terms.
#![tactic(auto)]

pub mod ratio; // ratio.rt: a fraction in lowest terms
