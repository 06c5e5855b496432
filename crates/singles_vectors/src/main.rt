// Replays lines with both calls, `call::add_numbers` and `call::add_numbers_without_singles` (02, S-12): a row of standard input is a line, a table and an edge list in
// hexadecimal, and what is to be seen, with a space before each. The edges of both answers go to standard output with the same words, one row each: start, end, and
// `+` for an active numeric edge, `.` for an inactive one, `=` for a regular one; the last row, of no input, is that of a work space a byte short.
// tools/model/singles.py makes both files.
#![tactic(auto)]

use answers::Refusal;
use call::WORK_SIZE;
use edge::{EdgeView, bits};
use lattice::MOST_BYTES;

fn show_edge(here: Option<EdgeView>) {
    match here {
        Some(e) => {
            vectors::say(b" ", e.start.0 as u64);
            vectors::say(b"-", e.end.0 as u64);
            vectors::edge_mark(
                edge::bit(e.map, bits::NUMERIC),
                edge::bit(e.map, bits::ACTIVE),
            );
        }
        None => {
            io::write_all(1, b" end");
        }
    }
}

fn show_edges(listing: &[u8], count: usize) {
    for i in 0..count {
        show_edge(walker::nth(listing, i));
    }
}

fn show(answer: Result<usize, Refusal>, out: &[u8; MOST_BYTES]) {
    match answer {
        Ok(_) => show_edges(out, fields::u16_at(out, 0) as usize),
        Err(r) => {
            let told = call::refusal_told(r);
            vectors::say(b" refused ", told.status as u64);
            vectors::say(b" ", told.at);
        }
    }
}

// Both answers, one after the other.
fn report(line: &[u8], table: &[u8], edges: &[u8], work: &mut [u8]) {
    let mut out = [0u8; MOST_BYTES];
    io::write_all(1, b"first:");
    show(call::add_numbers(line, table, edges, work, &mut out), &out);
    io::write_all(1, b", second:");
    show(
        call::add_numbers_without_singles(line, table, edges, work, &mut out),
        &out,
    );
}

// The rest of a row behind its table: the edge list's digits, and the words.
fn after_table(line: &[u8], table: &[u8], row: &[u8]) {
    let mut edges = io::buffer();
    let n = vectors::unhex(vectors::word(row), &mut edges);
    let mut work = [0u8; WORK_SIZE];
    report(line, table, &edges[0..n], &mut work);
    vectors::end_row(row);
}

// Takes a table's digits apart into its buffer, and goes on behind them.
fn after_line(line: &[u8], row: &[u8]) {
    let mut table = io::buffer();
    let space = vectors::until(row, 0, b' ');
    if space < row.len() {
        let n = vectors::unhex(&row[0..space], &mut table);
        after_table(line, &table[0..n], &row[space + 1..]);
    }
}

// Takes a line's digits apart into its buffer, and goes on behind them.
fn answer(row: &[u8]) {
    let mut line = io::buffer();
    let space = vectors::until(row, 0, b' ');
    if space < row.len() {
        let n = vectors::unhex(&row[0..space], &mut line);
        after_line(&line[0..n], &row[space + 1..]);
    }
}

// A work space that is a byte short, whatever else is lent.
fn report_short() {
    let mut work = [0u8; 65535];
    report(b"", b"", b"", &mut work);
    io::write_all(1, b" refused 1 alike\n");
}

fn main() {
    vectors::each_row(|row| answer(row));
    report_short();
}
