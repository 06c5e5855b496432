// The passes in turn on the stored edges of a pass list, and the edges that they stand for: definitions in specs/, theorems in proofs/, no code.
