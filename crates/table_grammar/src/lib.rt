// The grammar of numerals over the characters of any table, and demand 3 for every regular table: definitions in specs/, theorems in proofs/. No code.
#![tactic(auto)]
