// Markers and signs of the table in the line (01, "The rest of the call"): whether one stands at an offset, and the sign before a place.
#![tactic(auto)]

pub mod find; // find.rt: the marker that counts at a place
pub mod any; // any.rt: whether a line has a marker at all
pub mod texts; // texts.rt: the texts of a list

ghost use Rattle.std.specs.Prelude.{◌≡◌, true, ◌∷◌, ◌+◌, ◌≤◌, ◌<◌, length, drop};
ghost use Rattle.text.specs.Text.{chars, well_formed};
ghost use Rattle.text.specs.Line.{max_chars};
ghost use Rattle.numbers.specs.Ready.{Offsets};
ghost use Rattle.markers.specs.Marks.{folded_bytes, bytes_at, LastDiffers, sign_of};

use text::Place;
use text::check::PLACES;

// The marker that counts at a place, with its length in characters.
#[derive(Clone, Copy)]
pub enum Marker {
    Percentage(usize),
    Connector(usize),
}

// The first byte of every wide character.
const LEAD: u8 = 0xEF;

// A byte of a text as it counts (02, S-3), and how many bytes of the text it is made of: a wide character, U+FF01 to U+FF5E, counts as its ASCII byte.
#[derive(Clone, Copy)]
struct Counted {
    byte: u8,
    size: usize,
}

// The byte that counts at an offset of a text. The bytes of a wide character are EF BC 81 to EF BD 9E; no other character has a byte EF at its front and these behind.
fn counted_at(text: &[u8], at: usize) -> Counted
    requires { at < length text.now }
    ensures { (0 < result.size) × (at + result.size ≤ length text.now)
        × (folded_bytes (drop at text.now)
        ≡ result.byte ∷ folded_bytes (drop (at + result.size) text.now)) }
{
    let first = text[at];
    let itself = Counted {
        byte: first,
        size: 1,
    };
    if first != LEAD || text.len() - at < 3 {
        return itself;
    }
    let code = text[at + 1] as usize * 64 + text[at + 2] as usize;
    if code < 12161 || 12254 < code {
        return itself;
    }
    Counted {
        byte: (code - 12128) as u8,
        size: 3,
    }
}

// Whether the bytes of a marker stand in the line at an offset, both as they count. Where neither has the first byte of a wide character, a byte counts as itself.
pub fn stands(line: &[u8], at: usize, marker: &[u8]) -> bool
    requires { at ≤ length line.now }
    ensures { result ≡ bytes_at line.now at marker.now }
{
    let mut here = at;
    let mut next = 0;
    // Kept as an index loop: a character may have three bytes in one text and one in the other, so the two go on by sizes of their own, which no iterator of std gives.
    while next < marker.len() {
        if line.len() <= here {
            return false;
        }
        let found = line[here];
        let asked = marker[next];
        if (found == LEAD) | (asked == LEAD) {
            let found_counted = counted_at(line, here);
            let asked_counted = counted_at(marker, next);
            if found_counted.byte != asked_counted.byte {
                return false;
            }
            here += found_counted.size;
            next += asked_counted.size;
        } else {
            if found != asked {
                return false;
            }
            here += 1;
            next += 1;
        }
    }
    true
}

// ---- a sign directly before a place

// Whether the sign m doesn't stand before an offset of the line, by the last byte of both: of a wide character and its ASCII the lowest five bits are the same.
fn last_differs(line: &[u8], end: usize, marker: &[u8]) -> bool
    requires { end ≤ length line.now }
    ensures { result ≡ true → LastDiffers line.now end marker.now }
{
    let (Some(found), Some(asked)) = (line[..end].last(), marker.last()) else {
        return false;
    };
    *found % 32 != *asked % 32
}

// By the sign's characters, counted back from the place.
fn counted_back(line: &[u8], offs: &[usize; PLACES], here: Place, sign: &[u8]) -> Option<usize>
    requires { (length (chars line.now) ≤ max_chars) × Offsets line.now offs.now
        × (here.0 ≤ length (chars line.now)) × (well_formed sign.now ≡ true) }
    ensures { result ≡ sign_of (chars line.now) here.0 sign.now }
{
    let size = text::line::walk(sign, sign.len()).count;
    let from = here.0.checked_sub(size)?;
    if stands(line, offs[from], sign) {
        Some(size)
    } else {
        None
    }
}

// The sign of the table directly before a place of the line. Its characters are counted only where its last byte may stand there.
pub fn sign_before(line: &[u8], offs: &[usize; PLACES], here: Place, sign: &[u8]) -> Option<usize>
    requires { (length (chars line.now) ≤ max_chars) × Offsets line.now offs.now
        × (here.0 ≤ length (chars line.now)) × (well_formed sign.now ≡ true) }
    ensures { result ≡ sign_of (chars line.now) here.0 sign.now }
{
    if last_differs(line, offs[here.0], sign) {
        return None;
    }
    counted_back(line, offs, here, sign)
}
