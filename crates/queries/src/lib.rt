// The calls that read a finished listing (01, "The rest of the call"): here the best edge of a span and the neighbours of a place.
#![tactic(auto)]

pub mod path; // path.rt: the path, as a listing
pub mod shown; // shown.rt: which text is shown at a place
pub mod shown_part; // shown_part.rt: its bytes

ghost use Rattle.std.specs.Prelude.{◌≡◌};
ghost use Rattle.paths.specs.Reading.{answer};

use paths::{Query, ReadRefusal};
use text::Offset;

// The best edge of what is asked for, a span or the right or left neighbour of a place, the first of its class in listing order; skip: no numeric one.
#[tactic(auto, unfolding(paths::specs::Reading::answer))]
pub fn best_edge(
    line: &[u8],
    listing: &[u8],
    q: Query,
    skip: bool,
) -> Result<Option<Offset>, ReadRefusal>
    ensures { result ≡ answer line.now listing.now q skip }
{
    let (chars, count) = paths::check::check(line, listing)?;
    if !paths::inside::is_inside(chars, q) {
        return Err(ReadRefusal::BadPlace);
    }
    Ok(paths::best::best_of(listing, 2, count, q, skip))
}
