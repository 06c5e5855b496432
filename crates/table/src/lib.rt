// The table of characters that a call is lent (01, "Table" and "Record"; the Rust's dicts): reading its bytes. `record_check` and `table_check` check them; the definitions
// that they cite stand here. Every `at` and `next` is an offset in the table's bytes.
#![tactic(auto)]

pub mod bits; // bits.rt: the bits of a record's map
pub mod layout; // layout.rt: a string at an offset, and what reading a record gives
pub mod shape; // shape.rt: the answers of the check
pub mod digit; // digit.rt: the type "digit", and the rom that it asks for
pub mod record; // record.rt: a record whose layout was checked before
pub mod filter; // filter.rt: a filter over the code points of the records
pub mod index; // index.rt: the record of a character, by an index over the records
pub mod theorems; // theorems.rt: the bytes of a table as a value, and what the check accepts (theorems)
