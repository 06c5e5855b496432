// Marks of places, set in one walk over the lattice (01, "The rest of the call"): for F1 the places where an edge ends whose txt ends with a digit, for the fallback those that a numeric edge
// of one place covers.
#![tactic(auto)]

ghost use Rattle.std.specs.Prelude.{◌≡◌, false, Bool, List, ℕ, ◌≤◌, ◌<◌, get_or, replicate};
ghost use Rattle.edge.specs.Edge.{Edge};
ghost use Rattle.edge.specs.Layout.{edge_at};
ghost use Rattle.lattice.specs.Kept.{Holds};
ghost use Rattle.paths.specs.Reading.{Spanned};
ghost use Rattle.numbers.specs.CallEdge.{Legals};
ghost use Rattle.numbers.specs.Marks.{any_at};
ghost use Rattle.marks.specs.Marked.{digit_ends, ending, one_place, starting, mark_of, Asks, asks, place_by};

use edge::bits;
use lattice::Lattice;
use text::check::PLACES;

// Which edges set a mark: those whose txt ends with a digit, at their end; numeric ones of one place, at their start.
#[derive(Clone, Copy)]
pub enum Asked {
    DigitEnds,
    OnePlace,
}

// The place where an edge ends whose txt ends with a digit.
pub fn digit_end(work: &[u8], at: usize) -> Option<usize>
    requires { Spanned 256 work.now at }
    ensures { result ≡ mark_of digit_ends ending (edge_at work.now at) }
{
    let e = edge::head::edge_at(work, at);
    let txt = e.txt;
    let end = e.end;
    let from = txt.at.0;
    let to = from + txt.len;
    digits::ends::ends_with_digit(&work[from..to]).then_some(end.0)
}

// The place of a numeric edge of one place.
pub fn one_place(work: &[u8], at: usize) -> Option<usize>
    requires { Spanned 256 work.now at }
    ensures { result ≡ mark_of one_place starting (edge_at work.now at) }
{
    let map = fields::u16_at(work, at);
    let start = fields::u16_at(work, at + 2) as usize;
    let end = fields::u16_at(work, at + 4) as usize;
    (edge::bit(map, bits::NUMERIC) & (end == start + 1)).then_some(start)
}

// The marks of all edges, each of them at the place that is asked of it. One walk over the lattice.
fn mark_all<F: Fn(usize) -> Option<usize>>(
    work: &[u8],
    lattice: Lattice,
    place_of: F,
    marks: &mut [bool; PLACES],
)
    requires lent { (lattice.len ≡ 0 → ⊥) × ((n : ℕ) × (n ≤ 256)
        × ((es : List Edge) × Holds work.now lattice es × Legals n es)) × (marks.old ≡ replicate 257 false) }
    requires callable { (at : ℕ) → Spanned 256 work.now at → F.pre place_of at }
    ensures { (test : Edge → Bool) (place : Edge → ℕ)
        → Asks (F.post place_of) test place work.now
        → (n : ℕ) (es : List Edge) → n ≤ 256 → Holds work.now lattice es → Legals n es → (p : ℕ)
        → p < 257 → get_or marks.new p false ≡ any_at test place es p }
{
    for i in 0..lattice.count {
        if let Some(place) = place_of(lattice::offset_at(work, lattice, i)) {
            if place < PLACES {
                marks[place] = true;
            }
        }
    }
}

// The marks of all edges that are asked for.
pub fn mark_places(work: &[u8], lattice: Lattice, asked: Asked, marks: &mut [bool; PLACES])
    requires { (lattice.len ≡ 0 → ⊥) × ((n : ℕ) × (n ≤ 256)
        × ((es : List Edge) × Holds work.now lattice es × Legals n es)) × (marks.old ≡ replicate 257 false) }
    ensures { (n : ℕ) (es : List Edge) → n ≤ 256 → Holds work.now lattice es → Legals n es → (p : ℕ)
        → p < 257 → get_or marks.new p false ≡ any_at (asks asked) (place_by asked) es p }
{
    match asked {
        Asked::DigitEnds => mark_all(work, lattice, |at| digit_end(work, at), marks),
        Asked::OnePlace => mark_all(work, lattice, |at| one_place(work, at), marks),
    }
}
