// What the markers of a line lead to (01, "The rest of the call", fractions and percentages): the choice of each place, decided over the lattice as it stands.
#![tactic(auto)]

pub mod decision; // decision.rt: what the marker at one place leads to
pub mod neighbors; // neighbors.rt: the neighbours of all places

ghost use Rattle.std.specs.Prelude.{◌≡◌, List, ℕ, ◌<◌, length};
ghost use Rattle.text.specs.Text.{chars};
ghost use Rattle.text.specs.Line.{max_chars};
ghost use Rattle.table.specs.Answers.{table_of};
ghost use Rattle.edge.specs.Edge.{Edge};
ghost use Rattle.numbers.specs.Ready.{Ready, Offsets};
ghost use Rattle.numbers.specs.Fractions.{outcome_at};
ghost use Rattle.fraction_choices.specs.Choice.{outcome_of, Valid};
ghost use Rattle.fraction_choices.specs.Around.{HoldsLine, HoldsNeighbors};
ghost use Rattle.fraction_choices.specs.Choices.{Decided};

use crate::decision::Choice;
use lattice::Lattice;
use table::shape::Shape;
use text::Place;
use text::check::{MAX_CHARS, PLACES};

// What the marker at a place leads to. before and behind keep the left and the right neighbours of all places.
fn choice_at(
    work: &[u8],
    lattice: Lattice,
    line: &[u8],
    offs: &[usize; PLACES],
    table: &[u8],
    shape: Shape,
    before: &[usize; PLACES],
    behind: &[usize; PLACES],
    place: Place,
) -> Option<Choice>
    requires { ((n : ℕ) × Ready line.now table.now shape n) × Offsets line.now offs.now
        × ((es : List Edge) × HoldsNeighbors work.now lattice before.now behind.now es)
        × (place.0 < length (chars line.now)) }
    ensures { (es : List Edge)
        → HoldsNeighbors work.now lattice before.now behind.now es
        → (outcome_of es place.0 result ≡ outcome_at (table_of table.now shape) (chars line.now) es
        place.0) × Valid es result }
{
    let marker = markers::find::marker_at(line, offs, table, shape, place);
    crate::decision::outcome_at(work, lattice, before, behind, marker, place)
}

// The same of all places.
fn choose_all(
    work: &[u8],
    lattice: Lattice,
    line: &[u8],
    offs: &[usize; PLACES],
    table: &[u8],
    shape: Shape,
    places: usize,
    before: &[usize; PLACES],
    behind: &[usize; PLACES],
    choices: &mut [Option<Choice>; MAX_CHARS],
)
    requires { Ready line.now table.now shape places × Offsets line.now offs.now
        × ((es : List Edge) × HoldsNeighbors work.now lattice before.now behind.now es)
        × (length choices.old ≡ max_chars) }
    ensures { (es : List Edge)
        → HoldsNeighbors work.now lattice before.now behind.now es
        → Decided (table_of table.now shape) (chars line.now) es choices.new places }
{
    for p in 0..places {
        choices[p] = choice_at(
            work,
            lattice,
            line,
            offs,
            table,
            shape,
            before,
            behind,
            Place(p),
        );
    }
}

// The choices of all places, from the neighbours in the lattice.
pub fn choose(
    work: &[u8],
    lattice: Lattice,
    line: &[u8],
    offs: &[usize; PLACES],
    table: &[u8],
    shape: Shape,
    places: usize,
    choices: &mut [Option<Choice>; MAX_CHARS],
)
    requires { Ready line.now table.now shape places × Offsets line.now offs.now
        × ((es : List Edge) × HoldsLine work.now lattice es)
        × (length choices.old ≡ max_chars) }
    ensures { (es : List Edge) → HoldsLine work.now lattice es
        → Decided (table_of table.now shape) (chars line.now) es choices.new places }
{
    let mut before = [0usize; PLACES];
    let mut behind = [0usize; PLACES];
    crate::neighbors::neighbors(work, lattice, false, &mut before);
    crate::neighbors::neighbors(work, lattice, true, &mut behind);
    choose_all(
        work, lattice, line, offs, table, shape, places, &before, &behind, choices,
    );
}
