// The path over a finished listing (01, "The rest of the call"), written to the output as a listing.
ghost use Rattle.std.specs.Prelude.{◌≡◌, ◌≤◌, length};
ghost use Rattle.paths.specs.Reading.{Spans};
ghost use Rattle.paths.specs.Path.{rights, path, path_listing, fitting, path_out, written, after};
ghost use Rattle.paths.specs.Table.{Rights};
ghost use Rattle.text.specs.Line.{max_chars};

use paths::best::keep;
use paths::check::check;
use paths::inside::is_inside;
use paths::score::score_at;
use paths::walk::{Neighbors, path_size, write_path};
use paths::{Query, ReadRefusal};
use text::Place;
use text::check::MAX_CHARS;

// The right neighbours of all places. One walk over the listing.
fn right_neighbors(s: &[u8], count: usize, skip: bool) -> Neighbors
    requires { Spans max_chars count s.now 2 }
    ensures { Rights skip s.now count result.tops result.ats }
{
    let mut right = Neighbors {
        tops: [0; MAX_CHARS],
        ats: [0; MAX_CHARS],
    };
    let mut at = 2;
    for _ in 0..count {
        let start = Place(fields::u16_at(s, at + 2) as usize);
        let score = score_at(s, at, Query::Right(start), skip);
        keep(&mut right.tops, &mut right.ats, start, score, at);
        at = edge::next::next_at(s, at);
    }
    right
}

// The path in a listing that is read, within the line.
#[tactic(auto, using(paths::proofs::PathLaws::path_over))]
fn path_in(
    listing: &[u8],
    count: usize,
    start: Place,
    end: Place,
    skip: bool,
    out: &mut [u8],
) -> Result<usize, ReadRefusal>
    requires { Spans max_chars count listing.now 2 × (end.0 ≤ max_chars) }
    ensures answer { result ≡ written (fitting (length out.old)
        (path_listing listing.now (path (rights skip listing.now count) start.0 end.0))) }
    ensures output { out.new
        ≡ after out.old (fitting (length out.old)
        (path_listing listing.now (path (rights skip listing.now count) start.0 end.0))) }
{
    let right = right_neighbors(listing, count, skip);
    let (n, len) = path_size(listing, &right, start, end, out.len()).ok_or(
        ReadRefusal::ShortOutput,
    )?;
    fields::write::put_u16(out, 0, n as u16);
    write_path(listing, &right, start, end, out);
    Ok(len)
}

// The path from start to end, written to the output as a listing.
#[tactic(auto, unfolding(paths::specs::Path::path_out))]
pub fn path(
    line: &[u8],
    listing: &[u8],
    start: Place,
    end: Place,
    skip: bool,
    out: &mut [u8],
) -> Result<usize, ReadRefusal>
    ensures answer { result ≡ written (path_out line.now listing.now start end skip
        (length out.old)) }
    ensures output { out.new
        ≡ after out.old (path_out line.now listing.now start end skip
        (length out.old)) }
{
    let (chars, count) = check(line, listing)?;
    if !is_inside(chars, Query::Span(start, end)) {
        return Err(ReadRefusal::BadPlace);
    }
    path_in(listing, count, start, end, skip, out)
}
