// Replays a list of listings against `shares::pool_shares`: a row of standard input is a line and a listing in hexadecimal, and what is to be seen,
// with a space before each. What C is told goes to standard output with the same words, one row each.
#![tactic(auto)]

fn main() {
    vectors::each_row(|row| answer(row));
}

fn report(line: &[u8], listing: &[u8]) {
    let told = shares::told::shares_told(shares::pool_shares(line, listing));
    if told.status == 0 {
        vectors::say(b"sum ", told.numerator);
        vectors::say(b"/", told.denominator);
    } else {
        vectors::refused(told.status as u64, told.at);
    }
}

// Takes a listing's digits apart into its buffer, and reports.
fn try_listing(line: &[u8], digits: &[u8], listing: &mut [u8]) {
    let n = vectors::unhex(digits, listing);
    report(line, &listing[0..n]);
}

// The rest of a row: the listing's digits, and the words.
fn after_line(line: &[u8], row: &[u8]) {
    let mut listing = io::buffer();
    try_listing(line, vectors::word(row), &mut listing);
    vectors::end_row(row);
}

// Takes a line's digits apart into its buffer, and goes on behind them.
fn with_line(digits: &[u8], row: &[u8], line: &mut [u8]) {
    let n = vectors::unhex(digits, line);
    after_line(&line[0..n], row);
}

fn answer(row: &[u8]) {
    let mut line = io::buffer();
    with_line(vectors::word(row), vectors::rest(row), &mut line);
}
