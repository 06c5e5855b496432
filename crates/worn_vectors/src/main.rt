// Replays worn lines (02, S-10). Each line of standard input is one; of each it writes "rows", their bytes and the rows, with an output of just so many bytes, and then
// the answer with one byte less; or "refused", the number and the offset or place, with an output of no bytes. `tools/model/numerals.py vectors S-10` writes the lines, and
// with the word `answers` the expected answers.
#![tactic(auto)]

ghost use Rattle.std.specs.Prelude.{◌≤◌, length};

use text::LineRefusal;
use worn::WornRefusal;

fn main() {
    vectors::each_row(|row| show(row));
}

fn show(line: &[u8]) {
    let mut out = [46u8; 336];
    let n = rows_len(line, &mut out);
    show_with(line, n);
    if n > 0 {
        show_with(line, n - 1);
    }
}

// The answer with an output of so many bytes.
fn show_with(line: &[u8], room: usize)
    requires { room ≤ 336 }
{
    let mut out = [46u8; 336];
    show_in(line, &mut out[..room]);
}

// How many bytes the rows of a line have, 0 where it is refused.
fn rows_len(line: &[u8], out: &mut [u8]) -> usize
    ensures { result ≤ length out.old }
{
    let answer = worn::worn_character(line, out);
    if let Ok(n) = answer {
        return n;
    }
    0
}

// The answer with this output.
fn show_in(line: &[u8], out: &mut [u8]) {
    let answer = worn::worn_character(line, out);
    match answer {
        Ok(n) => {
            say(b"rows ", n as u64);
            io::write_all(1, &out[..n]);
        }
        Err(WornRefusal::Line(LineRefusal::IllFormed(at))) => say(b"refused 2 ", at.0 as u64),
        Err(WornRefusal::Line(LineRefusal::TooLong(at))) => say(b"refused 3 ", at.0 as u64),
        Err(WornRefusal::NotOneMark) => say(b"refused 12 ", 0),
        Err(WornRefusal::TooShort) => say(b"refused 8 ", 0),
        Err(WornRefusal::NoneServes) => say(b"refused 13 ", 0),
    }
}

fn say(word: &[u8], n: u64) {
    vectors::say(word, n);
    io::write_all(1, b"\n");
}
