// The edges of sound stored edges are edges of the call, beyond the contracts of `pass_edge`: theorems in proofs/, no code.
