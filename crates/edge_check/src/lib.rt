// Refusal 6 (01, "Listing"): whether bytes are a listing over a line, and where they are not.
#![tactic(auto)]

pub mod sound; // sound.rt: whether one edge may stand

ghost use Rattle.edge.specs.Check.{ListingAnswer};

use text::Offset;

// Refusal 6: a listing over a line of so many characters; given: its edges are given to the call.
// Kept as a bool: `ListingAnswer`, `check_listing` and `Legal` of edge's specs, which its theorems cite, take the same Bool, and it picks no step, only which maps may stand.
pub fn check_listing(s: &[u8], chars: usize, given: bool) -> Result<usize, Offset>
    ensures { ListingAnswer given chars s.now result }
{
    if s.len() < 2 {
        return Err(Offset(0));
    }
    let count = fields::u16_at(s, 0) as usize;
    let mut at = 2;
    for _ in 0..count {
        let next = edge::next::next_at(s, at);
        if !crate::sound::edge_legal(s, at, next, chars, given) {
            return Err(Offset(at));
        }
        at = next;
    }
    if at < s.len() {
        return Err(Offset(at));
    }
    Ok(count)
}
