// The bytes of a table as a value, and that the check accepts these bytes and no others: definitions in specs/, theorems in proofs/, no code.
