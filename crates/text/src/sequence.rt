// One UTF-8 sequence (Unicode Standard, table 3-7). The words of the contracts are those of `text`, in its specs/Table.antt and specs/Sequence.antt.
ghost use Rattle.std.specs.Prelude.{◌≡◌, cond, ◌+◌, ◌<◌, length, drop, IfSome};
ghost use Rattle.text.specs.Table.{within};
ghost use Rattle.text.specs.Sequence.{seq, trailing, HasLength};

use crate::code_point::{of_four, of_three, of_two, widen};
use crate::lead_byte::row_of;
use crate::{Offset, Seq};

fn between(lo: u8, hi: u8, x: u8) -> bool
    ensures { result ≡ within lo hi x }
{
    (lo <= x) & (x <= hi)
}

// A character, if its bytes are good.
fn char_if(good: bool, c: u32, len: usize) -> Seq
    ensures { result ≡ cond good (Seq.Char c len) Seq.Ill }
{
    if good {
        return Seq::Char(c, len);
    }
    Seq::Ill
}

// The sequences of two, three and four bytes at an offset: lead has the bits of the first byte, the second is from lo to hi.
// Kept as three: one loop over the trailing bytes would carry the test and the code point from byte to byte, which is longer than these bytes written out.
fn two(s: &[u8], at: usize, lead: u32, lo: u8, hi: u8) -> Seq
    requires { (at < length s.now) × (lead < 32) }
    ensures { result ≡ trailing 1 lo hi lead 1 (drop (at + 1) s.now) }
{
    if s.len() - at < 2 {
        return Seq::Ill;
    }
    let c = s[at + 1];
    char_if(between(lo, hi, c), of_two(s, at, lead), 2)
}

fn three(s: &[u8], at: usize, lead: u32, lo: u8, hi: u8) -> Seq
    requires { (at < length s.now) × (lead < 16) }
    ensures { result ≡ trailing 2 lo hi lead 1 (drop (at + 1) s.now) }
{
    if s.len() - at < 3 {
        return Seq::Ill;
    }
    let c = s[at + 1];
    let d = s[at + 2];
    let good = between(lo, hi, c) & between(0x80, 0xBF, d);
    char_if(good, of_three(s, at, lead), 3)
}

fn four(s: &[u8], at: usize, lead: u32, lo: u8, hi: u8) -> Seq
    requires { (at < length s.now) × (lead < 8) }
    ensures { result ≡ trailing 3 lo hi lead 1 (drop (at + 1) s.now) }
{
    if s.len() - at < 4 {
        return Seq::Ill;
    }
    let c = s[at + 1];
    let d = s[at + 2];
    let e = s[at + 3];
    let good = between(lo, hi, c) & between(0x80, 0xBF, d) & between(0x80, 0xBF, e);
    char_if(good, of_four(s, at, lead), 4)
}

// What stands at an offset.
pub fn seq_at(s: &[u8], at: Offset) -> Seq
    ensures { result ≡ seq (drop at.0 s.now) }
{
    let at = at.0;
    if s.len() <= at {
        return Seq::End;
    }
    let b = s[at];
    let row = row_of(b);
    let len = row.0;
    let lead = widen(b);
    match len {
        1 => Seq::Char(lead, 1),
        2 => two(s, at, lead % 32, row.1, row.2),
        3 => three(s, at, lead % 16, row.1, row.2),
        4 => four(s, at, lead % 8, row.1, row.2),
        _ => Seq::Ill,
    }
}

// The length of the sequence at an offset, where it is ASCII or of three bytes with a lead byte of E1 to EC, as Han and Kana are: fixed limits tell these. None of any other.
pub fn common_len(s: &[u8], at: usize) -> Option<usize>
    ensures { IfSome result (λ len. HasLength s.now at len) }
{
    if s.len() <= at {
        return None;
    }
    let b = s[at];
    if b < 0x80 {
        return Some(1);
    }
    if s.len() - at < 3 {
        return None;
    }
    let c = s[at + 1];
    let d = s[at + 2];
    if between(0xE1, 0xEC, b) & between(0x80, 0xBF, c) & between(0x80, 0xBF, d) {
        return Some(3);
    }
    None
}
