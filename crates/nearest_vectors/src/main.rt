// Replays a list of listings against `nearest_number::nearest_number`: a row of standard input is a line, a listing and a place, a little-endian u64, in hexadecimal, and
// what is to be seen, with a space before each. What C is told goes to standard output with the same words, one row each.
#![tactic(auto)]

use text::Place;

fn main() {
    vectors::each_row(|row| answer(row));
}

fn report(line: &[u8], listing: &[u8], place: u64) {
    let p = Place(place as usize);
    let told = answers::reading::answer_told(nearest_number::nearest_number(line, listing, p));
    if told.status > 0 {
        vectors::refused(told.status as u64, told.at);
    } else if told.at == 18446744073709551615 {
        io::write_all(1, b"none");
    } else {
        vectors::say(b"at ", told.at);
    }
}

// The number that eight bytes say.
fn place_of(digits: &[u8]) -> u64 {
    let mut bytes = [0u8; 8];
    vectors::unhex(digits, &mut bytes);
    fields::u64_at(&bytes, 0)
}

// Takes a listing's digits apart into its buffer, and reports.
fn try_listing(line: &[u8], digits: &[u8], place: u64, listing: &mut [u8]) {
    let n = vectors::unhex(digits, listing);
    report(line, &listing[0..n], place);
}

// The rest of a row behind its listing: the place's digits, and the words.
fn after_listing(line: &[u8], digits: &[u8], row: &[u8]) {
    let mut listing = io::buffer();
    try_listing(line, digits, place_of(vectors::word(row)), &mut listing);
    vectors::end_row(row);
}

// The rest of a row behind its line.
fn after_line(line: &[u8], row: &[u8]) {
    after_listing(line, vectors::word(row), vectors::rest(row));
}

// Takes a line's digits apart into its buffer, and goes on behind them.
fn with_line(digits: &[u8], row: &[u8], line: &mut [u8]) {
    let n = vectors::unhex(digits, line);
    after_line(&line[0..n], row);
}

fn answer(row: &[u8]) {
    let mut line = io::buffer();
    with_line(vectors::word(row), vectors::rest(row), &mut line);
}
