// Refusals 4 and 5 of a string or a record of the table (01, the table of refusals). The definitions are those of `table`, specs/Layout.antt and specs/Check.antt.
#![tactic(auto)]

pub mod ascii; // ascii.rt: whether bytes are ASCII, 4 or 8 at once
pub mod texts; // texts.rt: what strings may hold
pub mod code_point; // code_point.rt: what a code point may be
pub mod number; // number.rt: a number or a fraction, which may be absent
pub mod number_fields; // number_fields.rt: all numbers of a record
pub mod plain_numbers; // plain_numbers.rt: code point and numbers of a record as most are
pub mod plain; // plain.rt: a record as most are, by few tests
pub mod record; // record.rt: any record
