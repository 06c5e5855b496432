// The five passes. `pass_rules` has their rules, `pass_run` runs them.

// Kept as an enum that functions match on, not a trait with five types: a stored edge names the pass that joined it, so that the pass is a value.
#[derive(Clone, Copy)]
pub enum Pass {
    D1,
    G1,
    G2,
    G3,
    G4,
}
