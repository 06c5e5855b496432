// Weighs the digits of lines (02, S-9). Each line of standard input is one; of each it writes the weights, or "refused", the number and the offset or place; then the
// answer with an output of just as many bytes; and, where there are any, with one byte less.
// `tools/model/numerals.py vectors S-9` writes the lines, and with the word `answers` the expected answers.
#![tactic(auto)]

ghost use Rattle.std.specs.Prelude.{◌≤◌};

use numeral::FieldRefusal;
use text::LineRefusal;
use weights::WeighRefusal;

fn main() {
    vectors::each_row(|row| show(row));
}

fn show(line: &[u8]) {
    let mut out = [46u8; 2064];
    let count = weigh(line, &mut out);
    list(&out[..8 * count]);
    say_room(line, 8 * count);
    if count > 0 {
        say_room(line, 8 * count - 1);
    }
    io::write_all(1, b"\n");
}

// The answer in words, and the count of the weights: no line has more than 256.
fn weigh(line: &[u8], out: &mut [u8]) -> usize
    ensures { result ≤ 258 }
{
    let answer = weights::weigh_digits(line, out);
    match answer {
        Ok(n) => {
            vectors::say(b"weights ", n as u64);
            if n <= 258 { n } else { 0 }
        }
        Err(WeighRefusal::Field(FieldRefusal::AboveTop)) => refused(7, 0),
        Err(WeighRefusal::TooShort) => refused(8, 0),
        Err(WeighRefusal::Field(FieldRefusal::Line(LineRefusal::IllFormed(at)))) => refused(
            2,
            at.0 as u64,
        ),
        Err(WeighRefusal::Field(FieldRefusal::Line(LineRefusal::TooLong(at)))) => refused(
            3,
            at.0 as u64,
        ),
    }
}

fn refused(number: u64, at: u64) -> usize
    ensures { result ≤ 258 }
{
    vectors::refused(number, at);
    0
}

// The weights that are there.
fn list(out: &[u8]) {
    for i in 0..out.len() / 8 {
        vectors::say(b" ", fields::u64_at(out, 8 * i));
    }
}

// The answer with an output of so many bytes.
fn say_room(line: &[u8], room: usize)
    requires { room ≤ 2064 }
{
    let mut out = [46u8; 2064];
    vectors::say(b"; in ", room as u64);
    io::write_all(1, b": ");
    weigh(line, &mut out[..room]);
}
