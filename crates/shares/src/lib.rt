// Shares in a family grave (02, S-6): the fractions of a listing's active edges, pooled in listing order into an exact sum in lowest terms.
#![tactic(auto)]

pub mod step; // step.rt: one step, a sum and a fraction more
pub mod told; // told.rt: what C is told of the answer

ghost use Rattle.std.specs.Prelude.{◌≡◌, ◌≤◌, length};
ghost use Rattle.edge.specs.Layout.{next_at, edge_at, edges_at};
ghost use Rattle.paths.specs.Reading.{Spanned, Spans};
ghost use Rattle.shares.specs.Answers.{Reduced, fraction_of, pooled, said};
ghost use Rattle.shares.specs.Listing.{share, join, pool_edges, pool_shares};
ghost use Rattle.shares.specs.declared.SharesRefusal.TheVariants as SharesRefusal;

use edge::bits;
use passes::ratio::Ratio;
use paths::ReadRefusal;

// Why a listing's shares are refused: the index of the edge whose step is above TOP (11); a refusal of what was lent (2, 3, 6).
#[derive(Clone, Copy)]
pub enum SharesRefusal {
    Above(usize),
    Reading(ReadRefusal),
}

impl From<ReadRefusal> for SharesRefusal {
    ghost from_gives = { λ e r. r ≡ SharesRefusal.Reading e };

    fn from(e: ReadRefusal) -> SharesRefusal {
        SharesRefusal::Reading(e)
    }
}

// What the edge at an offset has to add.
fn share_at(s: &[u8], at: usize) -> Option<(u64, u64)>
    requires { next_at s.now at ≤ length s.now }
    ensures { result ≡ said (share (edge_at s.now at)) }
{
    let e = edge::head::edge_at(s, at);
    if !edge::bit(e.map, bits::NUMERIC) {
        return None;
    }
    if !edge::bit(e.map, bits::ACTIVE) {
        return None;
    }
    if !edge::bit(e.map, bits::FRACTION) {
        return None;
    }
    let d = edge::numeric::fields_at(e.map, s, e.fields.0);
    Some((d.numerator, d.denominator))
}

// The sum with the edge at an offset.
fn join_at(sum: Ratio, s: &[u8], at: usize) -> Option<Ratio>
    requires { Reduced sum × Spanned 256 s.now at }
    ensures { result ≡ pooled (join (fraction_of sum) (edge_at s.now at)) }
{
    match share_at(s, at) {
        None => Some(sum),
        Some((n, d)) => step::pool(sum, n, d),
    }
}

// The shares of so many edges. One walk over them.
#[tactic(auto, using(crate::proofs::ListingLaws::pooling_above))]
fn pool_edges(s: &[u8], count: usize) -> Result<Ratio, SharesRefusal>
    requires { Spans 256 count s.now 2 }
    ensures { result ≡ pool_edges (edges_at count s.now 2) }
{
    let mut sum = Ratio {
        numerator: 0,
        denominator: 1,
    };
    let mut at = 2;
    for i in 0..count {
        sum = join_at(sum, s, at).ok_or(SharesRefusal::Above(i))?;
        at = edge::next::next_at(s, at);
    }
    Ok(sum)
}

// What the active edges with a fraction come to together: their sum in lowest terms, 0/1 where there is none.
#[tactic(auto, unfolding(crate::specs::Listing::pool_shares))]
pub fn pool_shares(line: &[u8], listing: &[u8]) -> Result<Ratio, SharesRefusal>
    ensures { result ≡ pool_shares line.now listing.now }
{
    let (_, count) = paths::check::check(line, listing)?;
    pool_edges(listing, count)
}
