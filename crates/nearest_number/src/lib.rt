// The number nearest to a place of the line (02, S-14), of a finished listing.
#![tactic(auto)]

ghost use Rattle.std.specs.Prelude.{◌≡◌, ◌≤◌, ◌<◌, length};
ghost use Rattle.text.specs.Line.{max_chars};
ghost use Rattle.edge.specs.Layout.{head_end, edge_at};
ghost use Rattle.paths.specs.Best.{with_offsets, found};
ghost use Rattle.paths.specs.Reading.{Spanned, Spans};
ghost use Rattle.nearest_number.specs.Nearest.{is_number, between, comes_first, replaces_held, nearest, held_at, Held, nearest_number};

use edge::bits;
use paths::ReadRefusal;
use text::{Offset, Place};

// Whether the edge at an offset is numeric and active.
fn is_number(s: &[u8], at: usize) -> bool
    requires { head_end s.now at ≤ length s.now }
    ensures { result ≡ is_number (edge_at s.now at) }
{
    let map = fields::u16_at(s, at);
    edge::bit(map, bits::NUMERIC) && edge::bit(map, bits::ACTIVE)
}

// How many characters lie between a place and a span.
fn distance(place: Place, start: Place, end: Place) -> usize
    requires { start.0 < end.0 }
    ensures { result ≡ between place.0 start.0 end.0 }
{
    if place.0 < start.0 {
        return start.0 - place.0;
    }
    if end.0 < place.0 {
        return place.0 - end.0;
    }
    0
}

// Whether the edge at an offset comes before the one held, wherever they stand in the listing.
fn comes_first(s: &[u8], at: usize, held: usize, place: Place) -> bool
    requires { Spanned max_chars s.now at × Spanned max_chars s.now held }
    ensures { result ≡ comes_first place.0 (edge_at s.now at) (edge_at s.now held) }
{
    let start = fields::u16_at(s, at + 2) as usize;
    let end = fields::u16_at(s, at + 4) as usize;
    let held_start = fields::u16_at(s, held + 2) as usize;
    let held_end = fields::u16_at(s, held + 4) as usize;
    let far = distance(place, Place(start), Place(end));
    let held_far = distance(place, Place(held_start), Place(held_end));
    (far, start, held_end) < (held_far, held_start, end)
}

// Whether the edge at an offset is given instead of the one held, which stands before it in the listing.
fn replaces_held(s: &[u8], at: usize, held: Option<Offset>, place: Place) -> bool
    requires { Spanned max_chars s.now at × Held s.now held }
    ensures { result ≡ replaces_held place.0 (edge_at s.now at) (held_at s.now held) }
{
    if !is_number(s, at) {
        return false;
    }
    match held {
        None => true,
        Some(o) => comes_first(s, at, o.0, place),
    }
}

// The nearest of so many edges. One walk over them.
fn nearest_of(s: &[u8], count: usize, place: Place) -> Option<Offset>
    requires { Spans max_chars count s.now 2 }
    ensures { result ≡ found (nearest place.0 (with_offsets count s.now 2)) }
{
    let mut at = 2;
    let mut held = None;
    for _ in 0..count {
        if replaces_held(s, at, held, place) {
            held = Some(Offset(at));
        }
        at = edge::next::next_at(s, at);
    }
    held
}

// The offset of the active numeric edge nearest to a place.
#[tactic(auto, unfolding(crate::specs::Nearest::nearest_number))]
pub fn nearest_number(
    line: &[u8],
    listing: &[u8],
    place: Place,
) -> Result<Option<Offset>, ReadRefusal>
    ensures { result ≡ nearest_number line.now listing.now place }
{
    let (chars, count) = paths::check::check(line, listing)?;
    if chars < place.0 {
        return Err(ReadRefusal::BadPlace);
    }
    Ok(nearest_of(listing, count, place))
}
