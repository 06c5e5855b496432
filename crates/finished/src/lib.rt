// A finished listing: what the call writes, the reading calls read, and demand 3 of the bytes that are answered. Theorems in proofs/ about the definition of the call
// (`numbers`), for every line, table and edge list; no code.
#![tactic(auto)]
