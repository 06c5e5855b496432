// F1 (01, "The rest of the call"): a numeric edge whose txt begins with a digit, right after an edge whose txt ends with one, turns inactive, and its copy
// with a separator before its txt is added. One walk marks the places where such edges end (`marks`), one walk over the edges that were there adds the copies.
#![tactic(auto)]

ghost use Rattle.std.specs.Prelude.{◌≡◌, false, List, ℕ, ◌+◌, ◌≤◌, ◌<◌, length, get_or};
ghost use Rattle.edge.specs.Edge.{Edge};
ghost use Rattle.edge.specs.Layout.{edge_at};
ghost use Rattle.lattice.specs.Lattice.{add};
ghost use Rattle.lattice.specs.Kept.{Holds, no_edge, offset, SameBehind};
ghost use Rattle.paths.specs.Reading.{Spanned};
ghost use Rattle.lattice_add.specs.Copy.{Source};
ghost use Rattle.numbers.specs.CallEdge.{CallEdge, CallEdges};
ghost use Rattle.numbers.specs.Separators.{copy_of, separate};
ghost use Rattle.separators.specs.Marks.{apart_by, set_apart, all_apart};
ghost use Rattle.text.specs.Line.{max_chars};

use edge::bits;
use lattice::Lattice;
use marks::Asked;
use text::check::PLACES;

// Whether an edge is numeric, starts at a place that has a mark, and begins with a digit: few of them have to be asked for the last.
fn is_apart(work: &[u8], at: usize, marks: &[bool; PLACES]) -> bool
    requires { Spanned max_chars work.now at }
    ensures { result ≡ apart_by marks.now (edge_at work.now at) }
{
    let e = edge::head::edge_at(work, at);
    let txt = e.txt;
    let start = e.start;
    let from = txt.at.0;
    let to = from + txt.len;
    let place = start.0;
    if !(edge::bit(e.map, bits::NUMERIC) & marks[place]) {
        return false;
    }
    digits::ends::begins_with_digit(&work[from..to])
}

// The copy of an edge that stands in the listing is added, with its separator: a space if it has a fraction, else "·".
fn add_separated(work: &mut [u8], lattice: Lattice, at: usize, next: usize) -> Lattice
    requires { ((es : List Edge) × Holds work.old lattice es)
        × ((e : Edge) × Source work.old lattice.len at next 2 e) }
    ensures { SameBehind work.old work.new × ((es : List Edge) (e : Edge)
        → Holds work.old lattice es → Source work.old lattice.len at next 2 e
        → Holds work.new result (add es (copy_of e))) }
{
    let map = fields::u16_at(work, at);
    if edge::bit(map, bits::FRACTION) {
        return lattice_add::copy::add_copy(work, lattice, at, next, b" ");
    }
    lattice_add::copy::add_copy(work, lattice, at, next, b"\xC2\xB7")
}

// Where the i-th edge ends: where the next one begins, or the listing ends.
fn end_of(work: &[u8], lattice: Lattice, i: usize) -> usize
    requires { ((es : List Edge) × Holds work.now lattice es) × (lattice.len ≡ 0 → ⊥) × (i < lattice.count) }
    ensures { (es : List Edge) → Holds work.now lattice es → result ≡ offset es (i + 1) }
{
    if i + 1 < lattice.count {
        return lattice::offset_at(work, lattice, i + 1);
    }
    lattice.len
}

// The i-th edge is set apart, if the marks say so. The copy is made before its original turns inactive: it is active as that was.
fn set_apart(work: &mut [u8], lattice: Lattice, i: usize, marks: &[bool; PLACES]) -> Lattice
    requires { (n : ℕ) × (n ≤ max_chars) × ((es : List Edge) × Holds work.old lattice es × (i < length es)
        × CallEdge n (get_or es i no_edge)) }
    ensures { SameBehind work.old work.new × ((n : ℕ) (es : List Edge) → n ≤ max_chars
        → Holds work.old lattice es → i < length es → CallEdge n (get_or es i no_edge)
        → Holds work.new result (set_apart marks.now es i)) }
{
    if lattice.len == 0 {
        return lattice;
    }
    let at = lattice::offset_at(work, lattice, i);
    if !is_apart(work, at, marks) {
        return lattice;
    }
    let next = end_of(work, lattice, i);
    let added = add_separated(work, lattice, at, next);
    if added.len == 0 {
        return added;
    }
    lattice::turn_off(work, added, i);
    added
}

// All edges that are there are set apart in turn, if the marks say so. The copies are not looked at.
fn set_all_apart(work: &mut [u8], lattice: Lattice, marks: &[bool; PLACES]) -> Lattice
    requires { (n : ℕ) × (n ≤ max_chars) × ((es : List Edge) × Holds work.old lattice es
        × (length es ≡ lattice.count) × CallEdges n es) }
    ensures { SameBehind work.old work.new × ((n : ℕ) (es : List Edge) → n ≤ max_chars
        → Holds work.old lattice es → length es ≡ lattice.count → CallEdges n es
        → Holds work.new result (all_apart marks.now es 0 (length es))) }
{
    let mut grown = lattice;
    for i in 0..lattice.count {
        grown = set_apart(work, grown, i, marks);
    }
    grown
}

// F1: numbers that follow a digit are set apart.
pub fn separate(work: &mut [u8], lattice: Lattice) -> Lattice
    requires { (n : ℕ) × (n ≤ max_chars) × ((es : List Edge) × Holds work.old lattice es × CallEdges n es) }
    ensures { SameBehind work.old work.new × ((n : ℕ) (es : List Edge) → n ≤ max_chars
        → Holds work.old lattice es → CallEdges n es → Holds work.new result (separate es)) }
{
    if lattice.len == 0 {
        return lattice;
    }
    let mut marks = [false; PLACES];
    marks::mark_places(work, lattice, Asked::DigitEnds, &mut marks);
    set_all_apart(work, lattice, &marks)
}
