// What the programs share: the rows of standard input, where a word ends, bytes written in hexadecimal, a word and a number printed, a refusal, the end of a row.
#![tactic(auto)]

ghost use Rattle.std.specs.Prelude.{◌≡◌, ◌==◌, ◌+◌, ◌≤◌, ◌<◌, length, drop, position};
ghost use Rattle.vectors.specs.Until.{until_byte};

// The offset of the first `stop`.
fn first_at(s: &[u8], stop: u8) -> Option<usize>
    ensures { result ≡ position (λ x. x == stop) s.now }
{
    s.iter().position(|b| *b == stop)
}

// The offset of the first `stop` from an offset on, or the end.
pub fn until(s: &[u8], from: usize, stop: u8) -> usize
    requires { from ≤ length s.now }
    ensures { (result ≡ from + length (until_byte stop (drop from s.now)))
        × (result ≤ length s.now) }
{
    match first_at(&s[from..], stop) {
        Some(i) => from + i,
        None => s.len(),
    }
}

// The first word of a row, up to a space or the end.
pub fn word(row: &[u8]) -> &[u8] {
    let end = until(row, 0, b' ');
    &row[0..end]
}

// What stands behind the first space; nothing where there is none.
pub fn rest(row: &[u8]) -> &[u8] {
    let end = until(row, 0, b' ');
    if end < row.len() {
        return &row[end + 1..];
    }
    &row[end..]
}

// The value of a hexadecimal digit, 0 for any other byte.
fn hex_value(b: u8) -> u8
    ensures { result < 16 }
{
    match b {
        b'0'..=b'9' => b - b'0',
        b'a'..=b'f' => b - b'a' + 10,
        b'A'..=b'F' => b - b'A' + 10,
        _ => 0,
    }
}

// Writes the bytes that pairs of digits say to out, as many as fit, and answers how many.
pub fn unhex(digits: &[u8], out: &mut [u8]) -> usize
    ensures { result ≤ length out.new }
{
    let n = (digits.len() / 2).min(out.len());
    for i in 0..n {
        out[i] = hex_value(digits[2 * i]) * 16 + hex_value(digits[2 * i + 1]);
    }
    n
}

// Passes on the bytes that the digits of a row's first word say, as many as a buffer holds, and what stands behind the word.
pub fn with_bytes<F: FnOnce(&[u8], &[u8])>(row: &[u8], answer: F)
    requires { F.IsAlwaysCallable answer }
{
    let mut bytes = io::buffer();
    let n = unhex(word(row), &mut bytes);
    answer(&bytes[..n], rest(row))
}

// A word and a number, to standard output.
pub fn say(word: &[u8], n: u64) {
    io::write_all(1, word);
    io::print_decimal(1, n);
}

// A refusal's number, and the offset or place that goes with it.
pub fn refused(number: u64, at: u64) {
    say(b"refused ", number);
    say(b" ", at);
}

// What stands behind the first word of a row, and its end.
pub fn end_row(row: &[u8]) {
    let space = until(row, 0, b' ');
    io::write_all(1, &row[space..]);
    io::write_all(1, b"\n");
}

// How many rows a program takes at most.
pub const ROWS: usize = 4096;

// Passes each row of s on, without its newline, the first ROWS of them.
pub fn rows_of<F: FnMut(&[u8])>(s: &[u8], mut answer: F)
    requires { F.IsAlwaysCallable answer }
{
    let mut at = 0;
    for _ in 0..ROWS {
        if s.len() <= at {
            return;
        }
        let end = until(s, at, b'\n');
        answer(&s[at..end]);
        at = end + 1;
    }
}

// Reads standard input, and passes each of its rows on.
pub fn each_row<F: FnMut(&[u8])>(answer: F)
    requires { F.IsAlwaysCallable answer }
{
    let mut input = io::large_buffer();
    let got = io::read_full(0, &mut input);
    rows_of(&input[..got], answer)
}

// The mark of an edge: active or inactive where it is numeric, else regular.
pub fn edge_mark(numeric: bool, active: bool) {
    let mark = if !numeric {
        b"="
    } else if active {
        b"+"
    } else {
        b"."
    };
    io::write_all(1, mark);
}
