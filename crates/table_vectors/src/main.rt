// Replays a list of tables, most of them damaged, against `table_check::check_table`: a line of standard input is a table in
// hexadecimal, a space, and what is wrong with it. The answer goes to standard output with the same words, one line each.
#![tactic(auto)]

use table::index::INDEX_SIZE;

fn main() {
    vectors::each_row(|row| answer(row));
}

fn report(table: &[u8]) {
    let mut offs = [0u32; INDEX_SIZE];
    let mut entries: usize = 0;
    match table_check::check_table(table, &mut offs, &mut entries) {
        Ok(shape) => vectors::say(b"table of ", shape.count as u64),
        Err(r) => vectors::refused(r.cause.number() as u64, r.at.0 as u64),
    }
}

// The table that a row's digits say is reported, with the row's words.
fn answer(row: &[u8]) {
    vectors::with_bytes(row, |table, _| report(table));
    vectors::end_row(row);
}
