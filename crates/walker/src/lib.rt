// A walk over a listing, edge by edge from its front (01, "A form for each place"): a walker holds the listing and an offset.
// Its functions are thin: the work is in the functions of `walker::steps`.
#![tactic(auto)]

pub mod steps; // steps.rt: its steps, by a slice and an offset
pub mod whole_edge; // whole_edge.rt: a whole edge by its numbers

ghost use Rattle.std.specs.Prelude.{◌≡◌};
ghost use Rattle.walker.specs.Walk.{here_at, behind, onward};

use edge::EdgeView;
use text::Offset;

// A walker: a listing, and the offset where the walk stands.
#[derive(Clone, Copy)]
pub struct Walker<'a> {
    pub listing: &'a [u8],
    pub at: Offset,
}

// A walker at the first edge.
pub fn start<'a>(listing: &'a [u8]) -> Walker<'a>
    ensures { (result.listing ≡ listing.entry) × (result.at.0 ≡ 2) }
{
    Walker {
        listing,
        at: Offset(crate::steps::FIRST),
    }
}

// The edge where a walker stands.
pub fn edge_here<'a>(w: Walker<'a>) -> Option<EdgeView>
    ensures { result ≡ here_at w.entry.listing.now w.entry.at.0 }
{
    crate::steps::here_at(w.listing, w.at)
}

// The walker at the next edge.
pub fn next<'a>(w: Walker<'a>) -> Walker<'a>
    ensures { (result.listing ≡ w.entry.listing)
        × (result.at.0 ≡ behind w.entry.listing.now w.entry.at.0) }
{
    Walker {
        listing: w.listing,
        at: crate::steps::behind(w.listing, w.at),
    }
}

// A walker at edge i, counted from 0.
fn start_at<'a>(listing: &'a [u8], i: usize) -> Walker<'a>
    ensures { (result.listing ≡ listing.entry) × (result.at.0 ≡ onward i listing.now 2) }
{
    Walker {
        listing,
        at: crate::steps::onward(listing, i),
    }
}

// Edge i of a listing, counted from 0.
pub fn nth(listing: &[u8], i: usize) -> Option<EdgeView>
    ensures { result ≡ here_at listing.now (onward i listing.now 2) }
{
    edge_here(start_at(listing, i))
}
