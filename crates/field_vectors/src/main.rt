// Replays fields (02, S-4). Each line of standard input is one; of each it writes "yes" and the value, "no", or "refused", the number and the offset or place.
// `tools/model/numerals.py vectors S-4` writes the fields, and with the word `answers` the expected answers.
#![tactic(auto)]

use numeral::FieldRefusal;
use text::LineRefusal;

fn main() {
    vectors::each_row(|row| show(row));
}

fn show(field: &[u8]) {
    let answer = numeral::read::one_number(field);
    match answer {
        Ok(Some(v)) => say(b"yes ", v),
        Ok(None) => {
            io::write_all(1, b"no\n");
        }
        Err(FieldRefusal::AboveTop) => say(b"refused 7 ", 0),
        Err(FieldRefusal::Line(LineRefusal::IllFormed(at))) => say(b"refused 2 ", at.0 as u64),
        Err(FieldRefusal::Line(LineRefusal::TooLong(at))) => say(b"refused 3 ", at.0 as u64),
    }
}

fn say(word: &[u8], n: u64) {
    io::write_all(1, word);
    io::print_decimal(1, n);
    io::write_all(1, b"\n");
}
