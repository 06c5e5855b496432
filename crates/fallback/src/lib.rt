// The fallback (01, "The rest of the call"): an ASCII digit without a numeric edge on its place adds a regular edge there. The last stage of the call.
#![tactic(auto)]

ghost use Rattle.std.specs.Prelude.{◌≡◌, List, ◌≤◌, ◌<◌, length};
ghost use Rattle.text.specs.Text.{chars};
ghost use Rattle.text.specs.Line.{max_chars};
ghost use Rattle.edge.specs.Edge.{Edge};
ghost use Rattle.lattice.specs.Lattice.{add_all};
ghost use Rattle.lattice.specs.Kept.{Holds, SameBehind};
ghost use Rattle.numbers.specs.Ready.{Offsets};
ghost use Rattle.numbers.specs.CallEdge.{Legals};
ghost use Rattle.numbers.specs.Fallback.{fallback};
ghost use Rattle.fallback.specs.Marks.{digit_edge, unmarked, any_digit};

use lattice::Lattice;
use marks::Asked;
use text::Place;
use text::check::PLACES;

// The edge of a character at a place, by its first byte, if it is a digit whose place has no mark.
fn add_digit(work: &mut [u8], lattice: Lattice, byte: u8, place: Place, marked: bool) -> Lattice
    requires { ((es : List Edge) × Holds work.old lattice es) × (place.0 < max_chars) }
    ensures { SameBehind work.old work.new
        × ((es : List Edge) → Holds work.old lattice es
        → Holds work.new result (add_all es (digit_edge byte place.0 marked))) }
{
    if marked | !byte.is_ascii_digit() {
        return lattice;
    }
    let txt = [byte];
    lattice_add::regular::add_regular(work, lattice, place, Place(place.0 + 1), b"num", &txt)
}

// The edges of all digits whose places have no mark. One walk over the characters of the line: ASCII digits, and no others, begin with the byte of one.
fn add_unmarked(
    work: &mut [u8],
    lattice: Lattice,
    line: &[u8],
    offs: &[usize; PLACES],
    places: usize,
    marks: &[bool; PLACES],
) -> Lattice
    requires { ((es : List Edge) × Holds work.old lattice es) × Offsets line.now offs.now
        × (length (chars line.now) ≡ places) × (places ≤ max_chars) }
    ensures { SameBehind work.old work.new
        × ((es : List Edge) → Holds work.old lattice es
        → Holds work.new result (add_all es (unmarked marks.now 0 (chars line.now)))) }
{
    let mut grown = lattice;
    for place in 0..places {
        let at = offs[place];
        grown = add_digit(work, grown, line[at], Place(place), marks[place]);
    }
    grown
}

// Whether a line has the byte of an ASCII digit: most have none. The walk has no way out before the line's end, so that it takes many bytes at a time.
pub fn any_digit(line: &[u8]) -> bool
    ensures { result ≡ any_digit line.now }
{
    let mut found = false;
    for b in line {
        found |= b.is_ascii_digit();
    }
    found
}

// The fallback's edges are added, for a line of so many places. The marks are those of the lattice before the first of them.
pub fn fallback(
    work: &mut [u8],
    lattice: Lattice,
    line: &[u8],
    offs: &[usize; PLACES],
    places: usize,
) -> Lattice
    requires { Offsets line.now offs.now × (length (chars line.now) ≡ places) × (places ≤ max_chars)
        × ((es : List Edge) × Holds work.old lattice es × Legals places es) }
    ensures { SameBehind work.old work.new
        × ((es : List Edge) → Holds work.old lattice es → Legals places es
        → Holds work.new result (add_all es (fallback es 0 (chars line.now)))) }
{
    if lattice.len == 0 {
        return lattice;
    }
    if !any_digit(line) {
        return lattice;
    }
    let mut marks = [false; PLACES];
    marks::mark_places(work, lattice, Asked::OnePlace, &mut marks);
    add_unmarked(work, lattice, line, offs, places, &marks)
}
