// Replays tables against `regular::check_regular`: a line of standard input is a table in hexadecimal, a space, and what it is. The answer goes to standard output with
// the same words, one line each. `tools/model/regular.py vectors` writes the tables, and with the word `answers` the expected answers.
#![tactic(auto)]

fn main() {
    vectors::each_row(|row| answer(row));
}

fn report(table: &[u8]) {
    match regular::check_regular(table) {
        Ok(None) => {
            io::write_all(1, b"regular");
        }
        Ok(Some(at)) => vectors::say(b"not regular ", at.0 as u64),
        Err(r) => vectors::refused(r.cause.number() as u64, r.at.0 as u64),
    }
}

// The table that a row's digits say is reported, with the row's words.
fn answer(row: &[u8]) {
    vectors::with_bytes(row, |table, _| report(table));
    vectors::end_row(row);
}
