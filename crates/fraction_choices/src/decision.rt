// What the marker at a place leads to (01, "The rest of the call"): from the neighbours of the place in the lattice.
ghost use Rattle.std.specs.Prelude.{◌≡◌, List, ◌+◌, ◌≤◌, ◌<◌, length, get_or};
ghost use Rattle.edge.specs.Edge.{Edge};
ghost use Rattle.edge.specs.Layout.{next_at, edge_at};
ghost use Rattle.lattice.specs.Kept.{no_edge};
ghost use Rattle.numbers.specs.Listed.{whole_value};
ghost use Rattle.numbers.specs.Fractions.{is_numeric, marked, by_marker};
ghost use Rattle.markers.specs.Marks.{marker_of};
ghost use Rattle.fraction_choices.specs.Choice.{outcome_of, Valid};
ghost use Rattle.fraction_choices.specs.Around.{HoldsLine, HoldsNeighbors};
ghost use Rattle.fraction_choices.specs.Decision.{size_of, option_of, WholeValued, otherwise_of, both_of, with_values_of, between_of};
ghost use Rattle.text.specs.Line.{max_chars};

use edge::bits;
use lattice::Lattice;
use markers::Marker;
use text::Place;
use text::check::PLACES;

// What is made of the edges beside a marker: "right%" from the values; "right/left"; the right neighbour's txt and "%", from the marker on.
#[derive(Clone, Copy)]
pub enum Form {
    Percent,
    Fraction,
    TxtPercent,
}

// The decision at one place where something is made. left and right are indices of edges in the lattice; `TxtPercent` uses no left one, which is 0 there.
#[derive(Clone, Copy)]
pub struct Choice {
    pub form: Form,
    pub left: usize,
    pub right: usize,
}

// The value of the edge at an offset.
fn whole_value_at(work: &[u8], at: usize) -> Option<u64>
    requires { (next_at work.now at ≤ length work.now) × WholeValued (edge_at work.now at) }
    ensures { option_of result ≡ whole_value (edge_at work.now at) }
{
    let e = edge::head::edge_at(work, at);
    if !edge::bit(e.map, bits::NUMERIC) {
        return None;
    }
    if !edge::bit(e.map, bits::VALUE) {
        return None;
    }
    if edge::bit(e.map, bits::DECIMALS) {
        return None;
    }
    let d = edge::numeric::fields_at(e.map, work, e.fields.0);
    Some(whole::whole_part(f64::from_bits(d.value)))
}

// The value of the i-th edge.
fn whole_value(work: &[u8], lattice: Lattice, i: usize) -> Option<u64>
    requires { ((es : List Edge) × HoldsLine work.now lattice es) × (i < lattice.count) }
    ensures { (es : List Edge) → HoldsLine work.now lattice es
        → option_of result ≡ whole_value (get_or es i no_edge) }
{
    let at = lattice::offset_at(work, lattice, i);
    whole_value_at(work, at)
}

// Whether the i-th edge is numeric.
fn is_numeric(work: &[u8], lattice: Lattice, i: usize) -> bool
    requires { ((es : List Edge) × HoldsLine work.now lattice es) × (i < lattice.count) }
    ensures { (es : List Edge) → HoldsLine work.now lattice es
        → result ≡ is_numeric (get_or es i no_edge) }
{
    let at = lattice::offset_at(work, lattice, i);
    edge::bit(fields::u16_at(work, at), bits::NUMERIC)
}

// "Otherwise a percentage marker with a numeric right neighbour": right is one more than its index, 0 for none.
fn otherwise(work: &[u8], lattice: Lattice, percent: bool, right: usize) -> Option<Choice>
    requires { ((es : List Edge) × HoldsLine work.now lattice es) × (right ≤ lattice.count) }
    ensures { (es : List Edge) → HoldsLine work.now lattice es
        → result ≡ otherwise_of percent es right }
{
    if !percent || right == 0 {
        return None;
    }
    let index = right - 1;
    if !is_numeric(work, lattice, index) {
        return None;
    }
    Some(Choice {
        form: Form::TxtPercent,
        left: 0,
        right: index,
    })
}

// Both neighbours have values: the left one decides.
fn both(
    percent: bool,
    other: Option<Choice>,
    left: usize,
    value: u64,
    right: usize,
) -> Option<Choice>
    ensures { result ≡ both_of percent other left value right }
{
    if value == 100 {
        return Some(Choice {
            form: Form::Percent,
            left,
            right,
        });
    }
    if percent || value == 0 {
        return other;
    }
    Some(Choice {
        form: Form::Fraction,
        left,
        right,
    })
}

// Both neighbours are there, with these values.
fn with_values(
    percent: bool,
    other: Option<Choice>,
    left: usize,
    left_value: Option<u64>,
    right: usize,
    right_value: Option<u64>,
) -> Option<Choice>
    ensures { result ≡ with_values_of percent other left (option_of left_value) right (option_of right_value) }
{
    let (Some(value), Some(_)) = (left_value, right_value) else {
        return other;
    };
    both(percent, other, left, value, right)
}

// The choice between two neighbours, each one more than its index, 0 for none.
fn between(
    work: &[u8],
    lattice: Lattice,
    percent: bool,
    other: Option<Choice>,
    left: usize,
    right: usize,
) -> Option<Choice>
    requires { ((es : List Edge) × HoldsLine work.now lattice es) × (left ≤ lattice.count)
        × (right ≤ lattice.count) }
    ensures { (es : List Edge) → HoldsLine work.now lattice es
        → result ≡ between_of percent other es left right }
{
    // Kept as numbers, 0 for none: `paths::best::keep` fills the tables, for `queries` too.
    if left == 0 || right == 0 {
        return other;
    }
    let i = left - 1;
    let j = right - 1;
    let u = whole_value(work, lattice, i);
    let v = whole_value(work, lattice, j);
    with_values(percent, other, i, u, j, v)
}

// What a marker of so many characters at a place leads to: percent, or a connector.
fn marked(
    work: &[u8],
    lattice: Lattice,
    lefts: &[usize; PLACES],
    rights: &[usize; PLACES],
    percent: bool,
    place: Place,
    size: usize,
) -> Option<Choice>
    requires { ((es : List Edge) × HoldsNeighbors work.now lattice lefts.now rights.now es)
        × (place.0 + size ≤ max_chars) }
    ensures { (es : List Edge)
        → HoldsNeighbors work.now lattice lefts.now rights.now es
        → (outcome_of es place.0 result ≡ marked percent es place.0 size) × Valid es result }
{
    let p = place.0;
    let left = lefts[p];
    let right = rights[p + size];
    let other = otherwise(work, lattice, percent, right);
    between(work, lattice, percent, other, left, right)
}

// What the marker at a place leads to, by the neighbours that the two tables of `fraction_choices::neighbors` keep.
pub fn outcome_at(
    work: &[u8],
    lattice: Lattice,
    lefts: &[usize; PLACES],
    rights: &[usize; PLACES],
    marker: Option<Marker>,
    place: Place,
) -> Option<Choice>
    requires { ((es : List Edge) × HoldsNeighbors work.now lattice lefts.now rights.now es)
        × (place.0 + size_of (marker_of marker) ≤ max_chars) }
    ensures { (es : List Edge)
        → HoldsNeighbors work.now lattice lefts.now rights.now es
        → (outcome_of es place.0 result ≡ by_marker es place.0 (marker_of marker)) × Valid es result }
{
    // Kept as a flag: the rules of `numbers` (`marked`, `otherwise`, `both`) are one for both kinds of marker, with the flag in them.
    match marker? {
        Marker::Percentage(n) => marked(work, lattice, lefts, rights, true, place, n),
        Marker::Connector(n) => marked(work, lattice, lefts, rights, false, place, n),
    }
}
