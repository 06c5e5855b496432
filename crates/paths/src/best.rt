// The best of many edges of a listing (01, "The rest of the call"), by their scores (`paths::score`).
ghost use Rattle.std.specs.Prelude.{◌≡◌, cond, ◌<◌, length, get_or, set, ltb};
ghost use Rattle.paths.specs.Best.{best, with_offsets, Whole, found};

use crate::Query;
use text::{Offset, Place};

// The best of so many edges from an offset on, the first of its class (02, S-5). One walk over them.
pub fn best_of(s: &[u8], first: usize, count: usize, q: Query, skip: bool) -> Option<Offset>
    requires { Whole count s.now first }
    ensures { result ≡ found (best skip q (with_offsets count s.now first)) }
{
    let mut at = first;
    let mut top = 0;
    let mut held = None;
    for _ in 0..count {
        let score = crate::score::score_at(s, at, q, skip);
        if top < score {
            top = score;
            held = Some(Offset(at));
        }
        at = edge::next::next_at(s, at);
    }
    held
}

// Keeps an edge, by its offset or another label, as the neighbour of a place, where it scores higher than the one kept there.
pub fn keep(tops: &mut [usize], labels: &mut [usize], place: Place, score: usize, label: usize)
    requires { (place.0 < length tops.old) × (place.0 < length labels.old) }
    ensures scores { tops.new
        ≡ cond (ltb (get_or tops.old place.0 0) score) (set tops.old place.0 score)
        tops.old }
    ensures kept { labels.new
        ≡ cond (ltb (get_or tops.old place.0 0) score) (set labels.old place.0 label)
        labels.old }
{
    let p = place.0;
    if tops[p] < score {
        tops[p] = score;
        labels[p] = label;
    }
}
