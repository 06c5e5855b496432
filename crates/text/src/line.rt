// A text as characters: how far a walk over them comes, whether all of it is well-formed, and the offset of a place.
// The words of the contracts are those of `text`, in its specs/Text.antt and specs/Line.antt.
ghost use Rattle.std.specs.Prelude.{◌≡◌};
ghost use Rattle.text.specs.Text.{well_formed, offset_of};
ghost use Rattle.text.specs.Line.{walked};

use crate::sequence::{common_len, seq_at};
use crate::{Offset, Place, Seq, Walked};

// Over the characters from the start, at most so many, up to the end or an ill-formed sequence. The common ones are told by fewer tests.
pub fn walk(s: &[u8], most: usize) -> Walked
    ensures { result ≡ walked s.now most }
{
    let mut at = 0;
    for count in 0..most {
        if let Some(common) = common_len(s, at) {
            at += common;
        } else if let Seq::Char(_, len) = seq_at(s, Offset(at)) {
            at += len;
        } else {
            return Walked {
                count,
                at: Offset(at),
            };
        }
    }
    Walked {
        count: most,
        at: Offset(at),
    }
}

// Whether all of s is well-formed.
pub fn well_formed(s: &[u8]) -> bool
    ensures { result ≡ well_formed s.now }
{
    let w = walk(s, s.len());
    w.at.0 == s.len()
}

// The offset of a place of the line; the line's length for a place behind its end.
pub fn offset_of(line: &[u8], place: Place) -> Offset
    ensures { result.0 ≡ offset_of line.now place.0 }
{
    let w = walk(line, place.0);
    w.at
}
