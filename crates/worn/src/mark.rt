// Where the one □ of a line stands. □ has three bytes, as all sixteen characters of the plain table have.
ghost use Rattle.std.specs.Prelude.{◌≡◌, ◌≤◌, length, drop};
ghost use Rattle.worn.specs.Marked.{is_plain, is_mark, PlainTo, MarkIs};

use numeral::Glyph;
use numeral::plain::{SIZE, glyph_at};

// Whether a character of the plain table stands at an offset.
fn is_plain(line: &[u8], at: usize) -> bool
    ensures { result ≡ is_plain (drop at line.now) }
{
    !matches!(glyph_at(line, at), Glyph::Other | Glyph::End)
}

// Where the characters of the plain table end that stand from an offset on.
fn plain_end(line: &[u8], from: usize) -> usize
    requires { from ≤ length line.now }
    ensures { PlainTo line.now from result }
{
    // Kept as a loop: it has no count, and ends at the first character outside the table.
    let mut at = from;
    while is_plain(line, at) {
        at += SIZE;
    }
    at
}

// Whether □ stands at an offset.
fn is_mark(line: &[u8], at: usize) -> bool
    requires { at ≤ length line.now }
    ensures { result ≡ is_mark (drop at line.now) }
{
    line[at..].starts_with(b"\xe2\x96\xa1")
}

// Before it and behind it there are characters of the plain table alone.
pub fn find_mark(line: &[u8]) -> Option<usize>
    ensures { MarkIs line.now result }
{
    let at = plain_end(line, 0);
    if !is_mark(line, at) {
        return None;
    }
    let end = plain_end(line, at + SIZE);
    if end < line.len() {
        return None;
    }
    Some(at)
}
