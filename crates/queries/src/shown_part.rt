// The bytes of a text shown at a place of a line (01, "Added: .."): the part of the line or of the listing that the answer of `queries::shown::shown_text` names.
ghost use Rattle.std.specs.Prelude.{◌≡◌};
ghost use Rattle.fields.specs.Part.{part_of};
ghost use Rattle.paths.specs.Shown.{shown_part};

use fields::Part;
use paths::{ReadRefusal, Shown};

// A part of a slice; what of it is behind the slice's end is left out.
fn part_of(s: &[u8], p: Part) -> &[u8]
    ensures { result.now ≡ part_of s.now p }
{
    let at = p.at.0;
    let len = p.len;
    if s.len() <= at {
        return &s[..0];
    }
    if s.len() - at < len {
        return &s[at..];
    }
    let end = at + len;
    &s[at..end]
}

// The bytes of a text shown, a part of the slice that it names; none for a refusal.
#[tactic(auto, unfolding(paths::specs::Shown::shown_part))]
pub fn shown_part<'a>(line: &'a [u8], listing: &'a [u8], w: Result<Shown, ReadRefusal>) -> &'a [u8]
    ensures { result.now ≡ shown_part line.now listing.now w }
{
    match w {
        Ok(Shown::Listing(p)) => part_of(listing, p),
        Ok(Shown::Line(p)) => part_of(line, p),
        Err(_) => &line[..0],
    }
}
