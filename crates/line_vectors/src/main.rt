// The program of 01 on a list of lines. First it does what the program does, twice: the input begins with two lines that are cut at 4,096 bytes, ASCII digits and then 三, which ends
// inside a character. The lines behind them are read at once and answered one by one, each headed by its number. tools/line_vectors.py writes the input, and the output as the
// old program answers.
#![tactic(auto)]

use std::io::Print;

fn head(k: u64) {
    io::write_all(1, b"line ");
    io::print_decimal(1, k);
    io::write_all(1, b"\n");
}

// Every line of the text.
fn print_all<R: Print>(rt: &R, s: &[u8]) -> std::io::Result<()> {
    let mut from = 0;
    let mut k = 1;
    // Kept as a while: a line has a length of its own, and a `?` is in the loop, which a closure of `rows_of` cannot leave by.
    while from < s.len() {
        let end = print_line::read::line_end(s, from);
        head(k);
        print_line::print_rows(rt, &s[from..end])?;
        from = end + 1;
        k += 1;
    }
    Ok(())
}

fn main(rt: HostRuntime) -> std::io::Result<()> {
    print_line::print_line(&rt)?;
    print_line::print_line(&rt)?;
    let mut text = io::large_buffer();
    let n = io::read_full(0, &mut text);
    print_all(&rt, &text[..n])
}
