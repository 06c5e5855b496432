// Runs damaged listings through `edge_check::check_listing`: each field cut, each count too large, each fault of content, bytes left over, at the first and at a later edge.
// `stdout` has the expected answers, worked out by hand from the scope: the offset of the faulty edge, of the edge that is missing, or of what is left over.
#![tactic(auto)]

ghost use Rattle.std.specs.Prelude.{◌<◌};

fn say(word: &[u8], n: usize) {
    vectors::say(word, n as u64);
    io::write_all(1, b"\n");
}

// The answer for a listing over a line of three characters.
fn show(s: &[u8], given: bool) {
    match edge_check::check_listing(s, 3, given) {
        Ok(count) => say(b"edges ", count),
        Err(at) => say(b"refused 6 ", at.0),
    }
}

// Two edges: a regular one at offset 2, and at offset 14 a numeric one with every field. 0: the count; 2, 14: map; 4, 16: start; 6, 18: end; 8, 20: type "t"; 11, 23: txt "x";
// 26: orig_txt "o"; 29: value, a NaN; 37: numerator; 45: denominator; 53: base, 0; 61: base_multiplier; 69: script "c"; 72: value_s "v"; 75: 15 decimals.
fn listing() -> [u8; 76] {
    *b"\x02\x00\x00\x00\x00\x00\x01\x00\x01\x00t\x01\x00x\xff\x03\x00\x00\x01\x00\x01\x00t\x01\x00x\x01\x00o\x01\x00\x00\x00\x00\x00\xf8\x7f\x01\x00\x00\x00\x00\x00\x00\x00\x02\x00\x00\x00\x00\x00\x00\x00\x00\x00\x00\x00\x00\x00\x00\x00\xff\xff\xff\xff\xff\xff\xff\xff\x01\x00c\x01\x00v\x0f"
}

// Every length that cuts the listing off, from 0 bytes on, and the whole listing at last.
fn cuts() {
    let s = listing();
    for n in 0..77 {
        show(&s[..n], false);
    }
}

// The listing with another byte at an offset.
fn damaged(at: usize, byte: u8)
    requires { at < 76 }
{
    let mut s = listing();
    s[at] = byte;
    show(&s, false);
}

// Counts, lengths and maps.
fn layout() {
    damaged(0, 3); // a third edge would begin at the end: 76
    damaged(0, 1); // the second edge is left over: 14
    damaged(0, 0); // both are: 2
    damaged(9, 1); // a length of 257 at the first edge: 2
    damaged(11, 255); // the same for txt
    damaged(21, 1); // and at the second edge, here and below: 14
    damaged(23, 255);
    damaged(26, 255);
    damaged(69, 2); // one byte too long
    damaged(72, 2);
    damaged(2, 1); // numeric, with a length of 511 for orig_txt: 2
    damaged(2, 2); // a bit without bit 0: 2
    damaged(3, 2); // bit 9 without bit 0: 2
    damaged(14, 254); // bits without bit 0: 14
    damaged(15, 1); // without bit 9 the count is left over: 75
    damaged(15, 7); // bit 10: 14
    damaged(15, 129); // bit 15: 14
    damaged(14, 127); // inactive: accepted
    damaged(14, 63); // no large power, and inactive: accepted
}

// Spans, strings and numbers.
fn contents() {
    damaged(6, 0); // end at start: 2
    damaged(4, 1); // start at end: 2
    damaged(6, 3); // the end of the line: accepted
    damaged(6, 4); // past it: 2
    damaged(7, 1); // 257: 2
    damaged(18, 0); // end at start: 14
    damaged(16, 2); // start after end: 14
    damaged(18, 4); // past the line: 14
    damaged(10, 255); // an ill-formed type: 2
    damaged(13, 128); // an ill-formed txt: 2
    damaged(22, 192); // and so for the strings of the second edge: 14
    damaged(25, 195);
    damaged(28, 237);
    damaged(71, 245);
    damaged(74, 128);
    damaged(43, 32); // a numerator above TOP: 14
    damaged(43, 31); // below it: accepted
    damaged(51, 32); // a denominator above TOP: 14
    damaged(45, 0); // a denominator of 0: 14
    damaged(59, 32); // a base above TOP: 14
    damaged(36, 255); // any bits of a value: accepted
    damaged(75, 0); // no decimals: 14
    damaged(75, 1); // accepted
    damaged(75, 15); // accepted
    damaged(75, 16); // 16 decimals: 14
    damaged(75, 255); // 14
}

// A numeric edge with decimals and no other field, over the line: a walker accepts bit 9 without bits 1 and 8.
fn only_decimals() {
    show(
        b"\x01\x00\x01\x02\x00\x00\x03\x00\x00\x00\x00\x00\x00\x00\x01",
        false,
    ); // accepted
    show(
        b"\x01\x00\x01\x02\x00\x00\x03\x00\x00\x00\x00\x00\x00\x00\x10",
        false,
    ); // 16: 2
    show(
        b"\x01\x00\x01\x02\x00\x00\x03\x00\x00\x00\x00\x00\x00\x00",
        false,
    ); // cut off before the count: 2
    show(
        b"\x01\x00\x01\x02\x00\x00\x03\x00\x00\x00\x00\x00\x00\x00\x01",
        true,
    ); // given: 2
    show(
        b"\x01\x00\x00\x02\x00\x00\x03\x00\x00\x00\x00\x00\x01",
        false,
    ); // bit 9 without bit 0: 2
}

fn main() {
    cuts();
    layout();
    contents();
    let s = listing();
    show(&s, true); // a numeric edge that is given: 14
    show(b"\x00\x00", true); // no edges
    show(b"\x00\x00\x00", false); // left over at 2
    show(b"\x01\x00", false); // the missing edge begins at 2
    show(b"\x01\x00\x00\x00\x00\x00\x03\x00\x00\x00\x00\x00", true); // empty strings
    only_decimals();
}
