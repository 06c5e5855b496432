// The score of an edge in a listing (01, "The rest of the call").
ghost use Rattle.std.specs.Prelude.{◌≡◌, ◌+◌, ◌≤◌, length};
ghost use Rattle.edge.specs.Layout.{edge_at, head_end};
ghost use Rattle.paths.specs.Best.{regular_class, class, asked, score};

use crate::Query;
use edge::bits;
use text::Place;

// The class of a regular edge by its type.
fn regular_class(ty: &[u8]) -> usize
    ensures { result ≡ regular_class ty.now }
{
    if ty.starts_with(b"rom decomp") {
        return 3;
    }
    if ty.starts_with(b"rom") | ty.starts_with(b"num") {
        return 4;
    }
    2
}

// The class of the edge at an offset; 0: it is never given.
fn class_at(s: &[u8], at: usize, skip: bool) -> usize
    requires { head_end s.now at ≤ length s.now }
    ensures { result ≡ class skip (edge_at s.now at) }
{
    let e = edge::head::edge_at(s, at);
    if !edge::bit(e.map, bits::NUMERIC) {
        let from = e.ty.at.0;
        return regular_class(&s[from..from + e.ty.len]);
    }
    if skip {
        return 0;
    }
    if edge::bit(e.map, bits::ACTIVE) { 5 } else { 1 }
}

// Whether an edge from start to end is one of those asked for.
#[tactic(auto, unfolding(crate::specs::Best::asked))]
fn is_asked(q: Query, start: Place, end: Place) -> bool
    ensures { result ≡ asked q start.0 end.0 }
{
    match q {
        Query::Span(a, z) => (start.0 == a.0) & (end.0 == z.0),
        Query::Right(p) => start.0 == p.0,
        Query::Left(p) => end.0 == p.0,
    }
}

// The score of the edge at an offset.
pub fn score_at(s: &[u8], at: usize, q: Query, skip: bool) -> usize
    requires { head_end s.now at ≤ length s.now }
    ensures { result ≡ score skip q (edge_at s.now at) }
{
    let start = fields::u16_at(s, at + 2) as usize;
    let end = fields::u16_at(s, at + 4) as usize;
    if !is_asked(q, Place(start), Place(end)) {
        return 0;
    }
    let class = class_at(s, at, skip);
    if class == 0 {
        return 0;
    }
    end.saturating_sub(start) * 8 + class
}
