// Replays texts against the crate `text`. A line of standard input is a text in hexadecimal, or a remark that begins with #, which is written as it is.
// Of each text it writes the refusal and its offset, or how many characters it has and then each one's offset and code point.
#![tactic(auto)]

use text::{LineRefusal, Offset, Place, Seq};

fn main() {
    vectors::each_row(|row| answer(row));
}

fn answer(line: &[u8]) {
    if 0 < line.len() {
        if line[0] == b'#' {
            io::write_all(1, line);
            io::write_all(1, b"\n");
            return;
        }
    }
    let mut bytes = [0u8; 1024];
    take_apart(line, &mut bytes);
}

// The text that a line's digits say, in a lent buffer, is shown.
fn take_apart(digits: &[u8], bytes: &mut [u8]) {
    let n = vectors::unhex(digits, bytes);
    show(&bytes[0..n]);
    io::write_all(1, b"\n");
}

fn show(line: &[u8]) {
    match text::check::check_line(line) {
        Ok(n) => {
            vectors::say(b"chars ", n as u64);
            each(line, n);
        }
        Err(LineRefusal::IllFormed(at)) => vectors::say(b"refused 2 ", at.0 as u64),
        Err(LineRefusal::TooLong(at)) => vectors::say(b"refused 3 ", at.0 as u64),
    }
}

// The character at an offset.
fn show_char(line: &[u8], at: Offset) {
    vectors::say(b" ", at.0 as u64);
    io::write_all(1, b":");
    if let Seq::Char(c, _) = text::sequence::seq_at(line, at) {
        io::print_hex(1, c as u64, 1);
    }
}

fn each(line: &[u8], n: usize) {
    for p in 0..n {
        show_char(line, text::line::offset_of(line, Place(p)));
    }
}
