// Writes numbers out (02, S-1): every one up to 10,000, each power of ten and its neighbours, numbers of four groups with zeros within, and both sides of each limit. A row
// is the number, a tab and its numeral, or "refused", the number and the place. `tools/model/numerals.py vectors S-1` writes the expected answers.
#![tactic(auto)]

ghost use Rattle.std.specs.Prelude.{◌≤◌, ◌<◌};

use writing::WriteRefusal;

// The answer for n with this output.
fn show_in(n: u64, out: &mut [u8]) {
    io::print_decimal(1, n);
    io::write_all(1, b"\t");
    match writing::write_number(n, out) {
        Ok(len) => {
            io::write_all(1, &out[..len]);
            io::write_all(1, b"\n");
        }
        Err(WriteRefusal::AboveTop) => {
            io::write_all(1, b"refused 10 0\n");
        }
        Err(WriteRefusal::TooShort) => {
            io::write_all(1, b"refused 8 0\n");
        }
    }
}

// The answer for n with an output of so many bytes.
fn show(n: u64, room: usize)
    requires { room ≤ 93 }
{
    let mut out = [46u8; 93];
    show_in(n, &mut out[..room]);
}

fn small_numbers() {
    for n in 0..=10000 {
        show(n, 93);
    }
}

// 10 to 10,000,000,000,000,000, which is above TOP.
fn powers_of_ten() {
    // Kept as a while: each number is ten times the last, which no range of std gives.
    let mut p: u64 = 1;
    while p <= 1000000000000000 {
        p = p * 10;
        show(p - 1, 93);
        show(p, 93);
        show(p + 1, 93);
    }
}

// A group: none, one digit, zeros within, no thousands.
fn group(i: u64) -> u64
    ensures { result < 10000 }
{
    match i % 4 {
        0 => 0,
        1 => 7,
        2 => 1020,
        _ => 305,
    }
}

fn groups() {
    for i in 0..256 {
        show(
            group(i / 64) * 1000000000000
                + group(i / 16) * 100000000
                + group(i / 4) * 10000
                + group(i),
            93,
        );
    }
}

// 02's examples; TOP, the number after it and the greatest; outputs that just fit, and one byte less.
fn limits() {
    show(10010000, 93);
    show(100000001, 93);
    show(9007199254740991, 81);
    show(9007199254740991, 80);
    show(9007199254740992, 93);
    show(9007199254740992, 0);
    show(18446744073709551615, 93);
    show(1111111111111111, 93);
    show(1111111111111111, 92);
    show(0, 3);
    show(0, 2);
}

fn main() {
    small_numbers();
    powers_of_ten();
    groups();
    limits();
}
