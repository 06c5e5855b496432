// What is promised of listings beyond the contracts of `edge`: definitions in specs/, theorems in proofs/, no code.
