// What is promised of paths beyond the contracts of `paths`: theorems in proofs/, no code.
