// The steps of a walk over a listing, as functions of a slice and an offset: what stands there, what is behind it, and where a walk from the front stands after i steps.
// The walker struct of `walker` calls them. A walk ends where no whole edge stands, so nothing is required of the bytes.
ghost use Rattle.std.specs.Prelude.{◌≡◌};
ghost use Rattle.walker.specs.Walk.{whole, here_at, behind, onward};

use edge::EdgeView;
use text::Offset;

// Where the first edge of a listing stands.
pub const FIRST: usize = 2;

// Whether the edge at an offset ends within the listing.
fn whole_at(listing: &[u8], at: usize) -> bool
    ensures { result ≡ whole listing.now at }
{
    if listing.len() < at {
        return false;
    }
    edge::next::next_at(listing, at) <= listing.len()
}

// What stands at an offset.
pub fn here_at(listing: &[u8], at: Offset) -> Option<EdgeView>
    ensures { result ≡ here_at listing.now at.0 }
{
    let from = at.0;
    if whole_at(listing, from) {
        Some(edge::head::edge_at(listing, from))
    } else {
        None
    }
}

// Behind the edge at an offset; the offset itself where no whole edge stands.
pub fn behind(listing: &[u8], at: Offset) -> Offset
    ensures { result.0 ≡ behind listing.now at.0 }
{
    let from = at.0;
    if whole_at(listing, from) {
        Offset(edge::next::next_at(listing, from))
    } else {
        at
    }
}

// Where a walk from the front stands after i steps. It stops at its end, however many steps are left.
pub fn onward(listing: &[u8], i: usize) -> Offset
    ensures { result.0 ≡ onward i listing.now 2 }
{
    let mut at = FIRST;
    for _ in 0..i {
        let next = behind(listing, Offset(at));
        if next.0 == at {
            return Offset(at);
        }
        at = next.0;
    }
    Offset(at)
}
