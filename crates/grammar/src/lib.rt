// The plain table, the grammar of numerals and demand 3, and the formal table: definitions in specs/, theorems in proofs/. The only code is the tables' bytes.
#![tactic(auto)]

pub mod plain_table; // plain_table.rt: the plain table's bytes
pub mod formal_table; // formal_table.rt: the formal table's bytes
