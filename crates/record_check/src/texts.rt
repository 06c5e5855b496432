// What the strings of a table may hold (01, "Table", "Record"): UTF-8, and not nothing in a list.
ghost use Rattle.std.specs.Prelude.{◌≡◌, true, ◌+◌, ◌-◌, ◌≤◌, ◌<◌, length};
ghost use Rattle.fields.specs.Part.{part, part_of};
ghost use Rattle.text.specs.Text.{well_formed};
ghost use Rattle.table.specs.Check.{legal_mark};
ghost use Rattle.table.specs.Answers.{Within};
ghost use Rattle.record_check.specs.Rest.{Trail, SequenceIs};

use crate::ascii::short_ascii;
use fields::Part;

// Whether a continuation byte stands at an offset before the end.
fn trail_at(s: &[u8], at: usize, end: usize) -> bool
    requires { end ≤ length s.now }
    ensures { result ≡ true → Trail s.now at end }
{
    if end <= at {
        return false;
    }
    let b = s[at];
    (0x80 <= b) & (b <= 0xBF)
}

// The offset behind the sequence at an offset, if it is ASCII or told by fixed limits: those with a lead byte of E1 to EC are, as Han and Kana, and those of two bytes.
// Nothing of any other, and where the part ends before it.
fn sequence_end(s: &[u8], at: usize, end: usize) -> Option<usize>
    requires { (at < end) × (end ≤ length s.now) }
    ensures { SequenceIs s.now at end result }
{
    let b = s[at];
    if b < 0x80 {
        return Some(at + 1);
    }
    if !trail_at(s, at + 1, end) {
        return None;
    }
    if (0xE1 <= b) & (b <= 0xEC) {
        if trail_at(s, at + 2, end) {
            return Some(at + 3);
        }
        return None;
    }
    if (0xC2 <= b) & (b <= 0xDF) {
        return Some(at + 2);
    }
    None
}

// Whether the bytes of a part are UTF-8: what begins with no such sequence is taken apart into characters.
// Kept beside `text::line::well_formed`: by that alone a record whose rom has two letters of two bytes takes 347 instructions to check, so 313 (callgrind).
fn any_formed(s: &[u8], from: usize, end: usize) -> bool
    requires { (from ≤ end) × (end ≤ length s.now) }
    ensures { result ≡ well_formed (part s.now from (end - from)) }
{
    let mut at = from;
    while at < end {
        let Some(next) = sequence_end(s, at, end) else {
            return text::line::well_formed(&s[at..end]);
        };
        at = next;
    }
    true
}

// The same, most being short and ASCII. The offset and the length are handed over apart, since a structure is handed over in memory.
fn formed(s: &[u8], at: usize, len: usize) -> bool
    requires { at + len ≤ length s.now }
    ensures { result ≡ well_formed (part s.now at len) }
{
    if short_ascii(s, at, len) {
        return true;
    }
    any_formed(s, at, at + len)
}

// Whether a string is UTF-8.
pub fn well_formed(s: &[u8], p: Part) -> bool
    requires { Within s.now p }
    ensures { result ≡ well_formed (part_of s.now p) }
{
    formed(s, p.at.0, p.len)
}

// A string of a list: not empty, and UTF-8.
pub fn legal_mark(s: &[u8], p: Part) -> bool
    requires { Within s.now p }
    ensures { result ≡ legal_mark (part_of s.now p) }
{
    if p.len == 0 {
        return false;
    }
    well_formed(s, p)
}
