// What the stages of the call share after the checks 2 to 6: definitions in specs/, laws in proofs/, no code.
