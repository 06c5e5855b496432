// Walks listings past their end, by the number of the edge with `walker::nth`, and from edge to edge with `walker::steps`, and prints what it meets: places, map and the length of the txt of
// each edge, or the end. Then reads edges by their offsets as C does, and prints all their numbers. `stdout` has the expected answers, worked out by hand from the scope.
#![tactic(auto)]

use edge::EdgeView;
use rilvostam::edges::{EDGE_NUMBERS, rilvostam_edge_at};
use text::Offset;

// What stands at a step.
fn show(here: Option<EdgeView>) {
    match here {
        Some(e) => {
            vectors::say(b"edge ", e.start.0 as u64);
            vectors::say(b" ", e.end.0 as u64);
            vectors::say(b" ", e.map as u64);
            vectors::say(b" ", e.txt.len as u64);
            io::write_all(1, b"\n");
        }
        None => {
            io::write_all(1, b"end\n");
        }
    }
}

// The first n edges, each looked for from the front.
fn number(s: &[u8], n: usize) {
    for i in 0..n {
        show(walker::nth(s, i));
    }
}

// The first n steps, from edge to edge.
fn step(s: &[u8], n: usize) {
    let mut at = Offset(walker::steps::FIRST);
    for _ in 0..n {
        show(walker::steps::here_at(s, at));
        at = walker::steps::behind(s, at);
    }
}

// One listing: by number, and then from edge to edge. Behind so many steps the walk stands where the last line says.
fn walk(s: &[u8], n: usize) {
    number(s, n);
    step(s, n);
    let at = walker::steps::onward(s, n);
    vectors::say(b"at ", at.0 as u64);
    io::write_all(1, b"\n");
}

// Numbers in a row.
fn say_all(numbers: [u64; EDGE_NUMBERS]) {
    for n in numbers {
        vectors::say(b" ", n);
    }
    io::write_all(1, b"\n");
}

// The answer of C's call for an offset, the next offset, and the numbers, which were 7 before.
fn read(s: &[u8], at: u64) {
    let mut numbers = [7u64; EDGE_NUMBERS];
    let mut next: u64 = 7;
    let status = rilvostam_edge_at(s, at, &mut numbers, &mut next);
    vectors::say(b"answer ", status as u64);
    vectors::say(b" next ", next);
    say_all(numbers);
}

// Two edges as in `main`, read by their offsets.
fn read_edges() {
    let s =
        b"\x02\x00\x00\x00\x00\x00\x01\x00\x01\x00t\x01\x00x\xff\x01\x01\x00\x03\x00\x01\x00t\x02\x00xy\x01\x00o\x01\x00\x00\x00\x00\x00\xf8\x7f\x01\x00\x00\x00\x00\x00\x00\x00\x02\x00\x00\x00\x00\x00\x00\x00\x00\x00\x00\x00\x00\x00\x00\x00\xff\xff\xff\xff\xff\xff\xff\xff\x01\x00c\x01\x00v";
    read(s, 2); // the regular edge, from 2 to 14
    read(s, 14); // the numeric one, to the end
    read(s, 76); // the end: no edge
    read(s, 18446744073709551615); // nor there
    read(b"\x01\x00\x00\x00\x00\x00\x01\x00\x01\x00t\x01\x00", 2); // a txt that is cut off
    read(
        b"\x01\x00\x41\x00\x00\x00\x01\x00\x00\x00\x00\x00\x02\x00op",
        2,
    ); // a large power without any number
    read_decimals();
}

// Edges with decimals: every field and 15 decimals, then a regular edge; decimals and nothing else. The walk asks no more of a count than that its byte is there.
fn read_decimals() {
    let s =
        b"\x02\x00\xff\x03\x00\x00\x01\x00\x01\x00t\x01\x00x\x01\x00o\x01\x00\x00\x00\x00\x00\xf8\x7f\x01\x00\x00\x00\x00\x00\x00\x00\x02\x00\x00\x00\x00\x00\x00\x00\x00\x00\x00\x00\x00\x00\x00\x00\xff\xff\xff\xff\xff\xff\xff\xff\x01\x00c\x01\x00v\x0f\x00\x00\x01\x00\x02\x00\x00\x00\x00\x00";
    walk(s, 3); // both edges, then the end
    read(s, 2); // 15 decimals, to 64
    read(s, 64); // the regular edge
    read(
        b"\x01\x00\x01\x02\x00\x00\x03\x00\x00\x00\x00\x00\x00\x00\x01",
        2,
    ); // one decimal
    read(
        b"\x01\x00\x01\x02\x00\x00\x03\x00\x00\x00\x00\x00\x00\x00\x10",
        2,
    ); // 16
    read(
        b"\x01\x00\x01\x02\x00\x00\x03\x00\x00\x00\x00\x00\x00\x00",
        2,
    ); // cut off before the count
    read(b"\x01\x00\x00\x02\x00\x00\x03\x00\x00\x00\x00\x00", 2); // bit 9 without bit 0: no count
}

// Two edges, a regular one over place 0 and a numeric one with every field over places 1 and 2: whole, without the last byte, and without the txt of the first.
fn main() {
    walk(
        b"\x02\x00\x00\x00\x00\x00\x01\x00\x01\x00t\x01\x00x\xff\x01\x01\x00\x03\x00\x01\x00t\x02\x00xy\x01\x00o\x01\x00\x00\x00\x00\x00\xf8\x7f\x01\x00\x00\x00\x00\x00\x00\x00\x02\x00\x00\x00\x00\x00\x00\x00\x00\x00\x00\x00\x00\x00\x00\x00\xff\xff\xff\xff\xff\xff\xff\xff\x01\x00c\x01\x00v",
        4,
    ); // both edges, then the end, and the end again
    walk(
        b"\x02\x00\x00\x00\x00\x00\x01\x00\x01\x00t\x01\x00x\xff\x01\x01\x00\x03\x00\x01\x00t\x02\x00xy\x01\x00o\x01\x00\x00\x00\x00\x00\xf8\x7f\x01\x00\x00\x00\x00\x00\x00\x00\x02\x00\x00\x00\x00\x00\x00\x00\x00\x00\x00\x00\x00\x00\x00\x00\xff\xff\xff\xff\xff\xff\xff\xff\x01\x00c\x01\x00",
        2,
    ); // the second edge is no edge
    walk(b"\x02\x00\x00\x00\x00\x00\x01\x00\x01\x00t\x01\x00", 1); // nor is the first
    walk(b"\x01\x00\x00\x00\x00\x00\x03\x00\x00\x00\x00\x00", 2); // an edge with empty strings
    walk(b"\x05\x00", 1); // the count is not read
    walk(b"", 1); // no count
    read_edges();
}
