// The text shown at a place of a line (01, "Added: .."): which part of which slice. Module `queries::shown_part` hands its bytes out.
ghost use Rattle.std.specs.Prelude.{◌≡◌, false, ◌+◌, ◌<◌};
ghost use Rattle.paths.specs.declared.Query.TheVariants as Query;
ghost use Rattle.paths.specs.Best.{best, with_offsets, found};
ghost use Rattle.paths.specs.Reading.{Spans};
ghost use Rattle.paths.specs.Shown.{shown_by, shown};

use fields::Part;
use paths::best::best_of;
use paths::check::check;
use paths::{Query, ReadRefusal, Shown};
use text::Place;

// The text shown at a place of a line of so many characters.
fn shown_at(line: &[u8], listing: &[u8], chars: usize, count: usize, place: Place) -> Shown
    requires { Spans chars count listing.now 2 × (place.0 < chars) }
    ensures { result ≡ shown_by line.now listing.now place.0
        (found (best false (Query.Right place) (with_offsets count listing.now 2))) }
{
    match best_of(listing, 2, count, Query::Right(place), false) {
        Some(at) => Shown::Listing(edge::head::edge_at(listing, at.0).txt),
        None => {
            let from = text::line::offset_of(line, place);
            let to = text::line::offset_of(line, Place(place.0 + 1));
            Shown::Line(Part {
                at: from,
                len: to.0 - from.0,
            })
        }
    }
}

// The text shown at a place.
#[tactic(auto, using(paths::proofs::ReadingLaws::read_spans), unfolding(paths::specs::Shown::shown))]
pub fn shown_text(line: &[u8], listing: &[u8], place: Place) -> Result<Shown, ReadRefusal>
    ensures { result ≡ shown line.now listing.now place }
{
    let (chars, count) = check(line, listing)?;
    if chars <= place.0 {
        return Err(ReadRefusal::BadPlace);
    }
    Ok(shown_at(line, listing, chars, count, place))
}
