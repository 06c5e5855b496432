// Refusal 9 of a call that reads a listing (01, "The rest of the call"): whether what is asked is within the line.
ghost use Rattle.std.specs.Prelude.{◌≡◌};
ghost use Rattle.paths.specs.Reading.{inside};

use crate::Query;

// Whether what is asked is within a line of so many characters.
pub fn is_inside(chars: usize, q: Query) -> bool
    ensures { result ≡ inside chars q }
{
    match q {
        Query::Span(a, z) => (a.0 <= z.0) & (z.0 <= chars),
        Query::Right(p) => p.0 <= chars,
        Query::Left(p) => p.0 <= chars,
    }
}
