// The walk along the path over a listing (01, "The rest of the call"), by the right neighbours of all places: its size, and its edges copied to the output.
ghost use Rattle.std.specs.Prelude.{◌≡◌, ◌+◌, ◌≤◌, ◌<◌, length};
ghost use Rattle.std.proofs.lemmas.List.Edits.{sets};
ghost use Rattle.paths.specs.Path.{path, edge_parts};
ghost use Rattle.paths.specs.Table.{by_table, Steps, hop_of, size_of};
ghost use Rattle.text.specs.Line.{max_chars};

use text::check::MAX_CHARS;
use text::{Offset, Place};

// The right neighbours of all places: for each place a score, 0 for none, and the offset of its edge.
#[derive(Drop)]
pub struct Neighbors {
    pub tops: [usize; MAX_CHARS],
    pub ats: [usize; MAX_CHARS],
}

// The step of the path from a place.
fn hop_from(s: &[u8], right: &Neighbors, place: Place) -> Option<(Offset, Offset, Place)>
    requires { Steps s.now right.now.tops right.now.ats × (place.0 < max_chars) }
    ensures { result ≡ hop_of s.now
        (by_table s.now right.now.tops right.now.ats place.0) }
{
    let p = place.0;
    if right.tops[p] == 0 {
        return None;
    }
    let at = right.ats[p];
    Some((
        Offset(at),
        Offset(edge::next::next_at(s, at)),
        Place(fields::u16_at(s, at + 4) as usize),
    ))
}

// The size of the path from a place to another.
// Kept beside `write_path`: refusal 8 leaves the output as it was (01), so the size is counted before a byte is written.
pub fn path_size(
    s: &[u8],
    right: &Neighbors,
    start: Place,
    end: Place,
    room: usize,
) -> Option<(usize, usize)>
    requires { Steps s.now right.now.tops right.now.ats × (end.0 ≤ max_chars) }
    ensures { result ≡ size_of s.now
        (path (by_table s.now right.now.tops right.now.ats) start.0 end.0) room }
{
    if room < 2 {
        return None;
    }
    let last = end.0;
    let mut p = start.0;
    let mut n = 0;
    let mut len = 2;
    // Kept as a loop on a place: a step is as long as its edge, so no range counts the steps.
    while p < last {
        match hop_from(s, right, Place(p)) {
            None => {
                p += 1;
            }
            Some((from, to, next)) => {
                let size = to.0 - from.0;
                if room - len < size {
                    return None;
                }
                len += size;
                n += 1;
                p = next.0;
            }
        }
    }
    Some((n, len))
}

// The edges of the path, copied behind the count.
pub fn write_path(s: &[u8], right: &Neighbors, start: Place, end: Place, out: &mut [u8])
    requires { Steps s.now right.now.tops right.now.ats × (end.0 ≤ max_chars)
        × (2 + length (edge_parts s.now (path (by_table s.now right.now.tops right.now.ats) start.0 end.0))
        ≤ length out.old) }
    ensures { out.new ≡ sets out.old 2
        (edge_parts s.now (path (by_table s.now right.now.tops right.now.ats) start.0
        end.0)) }
{
    let last = end.0;
    let mut p = start.0;
    let mut at = 2;
    // Kept as a loop on a place: a step is as long as its edge, so no range counts the steps.
    while p < last {
        match hop_from(s, right, Place(p)) {
            None => {
                p += 1;
            }
            Some((from, to, next)) => {
                let first = from.0;
                let behind = to.0;
                fields::copy::copy_in(out, at, &s[first..behind]);
                at += behind - first;
                p = next.0;
            }
        }
    }
}
