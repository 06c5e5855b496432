// The right or the left neighbours of all places of the lattice (01, "The rest of the call"), in one walk.
ghost use Rattle.std.specs.Prelude.{◌≡◌, List, ◌+◌, ◌≤◌, length, replicate};
ghost use Rattle.edge.specs.Edge.{Edge};
ghost use Rattle.edge.specs.Layout.{edge_at};
ghost use Rattle.fraction_choices.specs.Around.{HoldsLine, side_of, place_of, Neighbors};
ghost use Rattle.text.specs.Line.{PLACES};

use lattice::Lattice;
use paths::Query;
use text::Place;
use text::check::PLACES;

// What is asked for at a place: its right or its left neighbour. Kept as a flag: each contract here says which side (`Neighbors right`), and a closure would need a clause for it.
fn side(right: bool, place: Place) -> Query
    ensures { result ≡ side_of right place.0 }
{
    if right {
        Query::Right(place)
    } else {
        Query::Left(place)
    }
}

// The place whose right or left neighbour the edge at an offset may be.
fn place_at(work: &[u8], at: usize, right: bool) -> Place
    requires { at + 10 ≤ length work.now }
    ensures { result.0 ≡ place_of right (edge_at work.now at) }
{
    if right {
        Place(fields::u16_at(work, at + 2) as usize)
    } else {
        Place(fields::u16_at(work, at + 4) as usize)
    }
}

// The right or the left neighbours of all places, and their scores. One walk over the lattice.
fn scored_neighbors(
    work: &[u8],
    lattice: Lattice,
    right: bool,
    tops: &mut [usize; PLACES],
    table: &mut [usize; PLACES],
)
    requires { ((es : List Edge) × HoldsLine work.now lattice es) × (tops.old ≡ replicate PLACES 0)
        × (table.old ≡ replicate PLACES 0) }
    ensures { (es : List Edge) → HoldsLine work.now lattice es
        → Neighbors right es table.new }
{
    let mut at = 2;
    for i in 0..lattice.count {
        let place = place_at(work, at, right);
        let score = paths::score::score_at(work, at, side(right, place), false);
        paths::best::keep(tops, table, place, score, i + 1);
        at = edge::next::next_at(work, at);
    }
}

// The right or the left neighbours of all places: one more than their indices, 0 for none.
pub fn neighbors(work: &[u8], lattice: Lattice, right: bool, table: &mut [usize; PLACES])
    requires { ((es : List Edge) × HoldsLine work.now lattice es) × (table.old ≡ replicate PLACES 0) }
    ensures { (es : List Edge) → HoldsLine work.now lattice es
        → Neighbors right es table.new }
{
    let mut tops = [0usize; PLACES];
    scored_neighbors(work, lattice, right, &mut tops, table);
}
