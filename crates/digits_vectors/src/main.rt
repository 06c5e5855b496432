// Counts the decimal digits among all code points, and the starts that the digit test compares with all of them (02, S-2); then says of each line of standard input whether
// it begins and whether it ends with a digit, and how many starts are compared with its first character, or - where it has none.
// The answers in `stdout` are those of UnicodeData.txt 15.0 (`tools/check_nd`); `stdin` has the characters on both sides of each run's limits, and lines that are ill-formed.
#![tactic(auto)]

ghost use Rattle.std.specs.Prelude.{◌≤◌};

use text::{Offset, Seq};

const STDOUT: i32 = 1;

fn count_digits() -> u64 {
    let mut n: u64 = 0;
    for c in 0..0x110000 {
        if digits::is_digit(c).digit {
            n += 1;
        }
    }
    n
}

// The starts that are compared with a character, 68 at the most.
fn compared(c: u32) -> u64
    ensures { result ≤ 68 }
{
    digits::is_digit(c).compared as u64
}

fn count_compared() -> u64 {
    let mut n: u64 = 0;
    for c in 0..0x110000 {
        n += compared(c);
    }
    n
}

fn write_answer(yes: bool) {
    if yes {
        io::write_all(STDOUT, b"\tyes");
    } else {
        io::write_all(STDOUT, b"\tno");
    }
}

// The starts compared with the first character.
fn write_compared(line: &[u8]) {
    io::write_all(STDOUT, b"\t");
    if let Seq::Char(c, _) = text::sequence::seq_at(line, Offset(0)) {
        io::print_decimal(STDOUT, compared(c));
    } else {
        io::write_all(STDOUT, b"-");
    }
}

fn write_row(line: &[u8]) {
    io::write_all(STDOUT, line);
    write_answer(digits::ends::begins_with_digit(line));
    write_answer(digits::ends::ends_with_digit(line));
    write_compared(line);
    io::write_all(STDOUT, b"\n");
}

fn main() {
    io::print_decimal(STDOUT, count_digits());
    io::write_all(STDOUT, b"\n");
    io::print_decimal(STDOUT, count_compared());
    io::write_all(STDOUT, b"\n");
    // one page of rows: what lies behind it is not read
    let mut input = io::buffer();
    let n = io::read_full(0, &mut input);
    vectors::rows_of(&input[..n], |line| write_row(line));
}
