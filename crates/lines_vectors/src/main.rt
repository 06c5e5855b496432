// Replays `lines::add_numbers_to_lines`: a row of standard input is the bytes of the lines and a table in hexadecimal, the output's length in four hexadecimal digits, a
// work space's likewise less one (ffff is 65,536 bytes), and what is to be seen. Standard output has status, `at` and `next`, the page's bytes in hexadecimal, whether
// the bytes behind it are as they were, and the same words. tools/model/lines.py makes both files.
#![tactic(auto)]

ghost use Rattle.std.specs.Prelude.{◌≤◌};

// The digit of the lower four bits.
fn hex_digit(n: u8) -> u8 {
    let d = n % 16;
    if d < 10 { d + b'0' } else { d - 10 + b'a' }
}

fn show_bytes(s: &[u8]) {
    for b in s {
        let two = [hex_digit(*b / 16), hex_digit(*b % 16)];
        io::write_all(1, &two);
    }
}

// Whether every byte is a dot, as before the call.
fn only_dots(s: &[u8]) -> bool {
    s.iter().all(|b| *b == b'.')
}

fn show_page(out: &[u8], at: usize) {
    if out.len() < at {
        io::write_all(1, b" too long");
        return;
    }
    show_bytes(&out[..at]);
    if !only_dots(&out[at..]) {
        io::write_all(1, b" and more");
    }
}

fn report(lines: &[u8], table: &[u8], work: &mut [u8], out: &mut [u8]) {
    let answer = lines::add_numbers_to_lines(lines, table, work, out);
    let told = lines::told::page_told(answer);
    io::print_decimal(1, told.status as u64);
    vectors::say(b" ", told.at);
    vectors::say(b" ", told.next);
    io::write_all(1, b" ");
    if told.status == 0 {
        show_page(out, told.at as usize);
    } else {
        show_page(out, 0);
    }
}

fn wide(x: u8) -> usize
    ensures { result ≤ 255 }
{
    x as usize
}

// A number in four digits.
fn length_of(digits: &[u8]) -> usize
    ensures { result ≤ 65535 }
{
    let mut two = [0u8; 2];
    vectors::unhex(digits, &mut two);
    wide(two[0]) * 256 + wide(two[1])
}

// The rest of a row behind its table.
fn after_table(lines: &[u8], table: &[u8], row: &[u8]) {
    let mut work = io::large_buffer();
    let mut out = [b'.'; 65536];
    let n = length_of(vectors::word(row));
    let rest = vectors::rest(row);
    let m = length_of(vectors::word(rest)) + 1;
    report(lines, table, &mut work[..m], &mut out[..n]);
    io::write_all(1, b" ");
    io::write_all(1, vectors::rest(rest));
    io::write_all(1, b"\n");
}

// A row: the lines and a table, then what is behind them.
fn answer(row: &[u8]) {
    vectors::with_bytes(row, |lines, rest| {
        vectors::with_bytes(rest, |table, rest| after_table(lines, table, rest))
    })
}

fn main() {
    vectors::each_row(|row| answer(row));
}
