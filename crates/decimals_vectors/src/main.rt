// Replays lines with both calls, `call::add_numbers` and `call::add_numbers_with_decimals` (02, S-13): a row of standard input is a line, a table and an edge list in
// hexadecimal, the bytes of the output and those of the work space less one as 16-bit numbers, and what is to be seen, with a space before each. The edges of both answers go to
// standard output with the same words, one row each: start, end, `+` for an active numeric edge, `.` for an inactive one, `=` for a regular one, the txt, and behind `/` the count
// of decimals and the bits of the value. tools/model/decimals.py makes both files.
#![tactic(auto)]

ghost use Rattle.std.specs.Prelude.{◌≤◌};

use answers::Refusal;
use edge::{EdgeView, NumFields, bits};
use fields::Part;
use text::Offset;

fn show_part(listing: &[u8], part: Part) {
    let from = part.at.0;
    if listing.len() < from {
        return;
    }
    if listing.len() - from < part.len {
        return;
    }
    let to = from + part.len;
    io::write_all(1, &listing[from..to]);
}

fn show_edge(listing: &[u8], view: EdgeView, num: NumFields) {
    vectors::say(b" ", view.start.0 as u64);
    vectors::say(b"-", view.end.0 as u64);
    vectors::edge_mark(
        edge::bit(view.map, bits::NUMERIC),
        edge::bit(view.map, bits::ACTIVE),
    );
    show_part(listing, view.txt);
    if edge::bit(view.map, bits::DECIMALS) {
        vectors::say(b"/", num.decimals as u64);
        vectors::say(b":", num.value);
    }
}

// The edges one after the other; each has a byte at least.
fn show_edges(listing: &[u8]) {
    let mut at: usize = 2;
    for _ in 0..listing.len() {
        let Some((view, num, next)) = walker::whole_edge::whole_edge_at(listing, Offset(at)) else {
            return;
        };
        show_edge(listing, view, num);
        at = next.0;
    }
}

fn show(answer: Result<usize, Refusal>, out: &[u8]) {
    match answer {
        Ok(len) => {
            if out.len() < len {
                io::write_all(1, b" too long");
            } else {
                show_edges(&out[..len]);
            }
        }
        Err(r) => {
            let told = call::refusal_told(r);
            io::write_all(1, b" ");
            vectors::refused(told.status as u64, told.at);
        }
    }
}

// Both answers, one after the other.
fn report(line: &[u8], table: &[u8], edges: &[u8], work: &mut [u8], out: &mut [u8]) {
    io::write_all(1, b"first:");
    let first = call::add_numbers(line, table, edges, work, out);
    show(first, out);
    io::write_all(1, b", with decimals:");
    let further = call::add_numbers_with_decimals(line, table, edges, work, out);
    show(further, out);
}

// A number of two bytes, little-endian, in hexadecimal.
fn length_of(digits: &[u8]) -> usize
    ensures { result ≤ 65535 }
{
    let mut two = [0u8; 2];
    vectors::unhex(digits, &mut two);
    fields::u16_at(&two, 0) as usize
}

// The rest of a row behind its edge list: the two lengths, and the words.
fn after_edges(line: &[u8], table: &[u8], edges: &[u8], row: &[u8]) {
    let mut work = io::large_buffer();
    let mut out = io::large_buffer();
    let n = length_of(vectors::word(row));
    let rest = vectors::rest(row);
    let m = length_of(vectors::word(rest)) + 1;
    report(line, table, edges, &mut work[..m], &mut out[..n]);
    vectors::end_row(rest);
}

// A row: a line, a table and an edge list, then what is behind them.
fn answer(row: &[u8]) {
    vectors::with_bytes(row, |line, rest| {
        vectors::with_bytes(rest, |table, rest| {
            vectors::with_bytes(rest, |edges, rest| after_edges(line, table, edges, rest))
        })
    })
}

fn main() {
    vectors::each_row(|row| answer(row));
}
