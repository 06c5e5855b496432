// The stage of fractions and percentages (01, "The rest of the call"): every place is decided before an edge changes; then the used edges turn
// inactive, and the new ones are added.
#![tactic(auto)]

pub mod deactivate; // deactivate.rt: the used edges turn inactive
pub mod texts; // texts.rt: the texts of the new edges
pub mod parts; // parts.rt: their fields, and what they take from the used edges
pub mod new_edge; // new_edge.rt: the edge of a choice, added

ghost use Rattle.std.specs.Prelude.{List, ◌≤◌, ◌<◌};
ghost use Rattle.text.specs.Text.{chars};
ghost use Rattle.text.specs.Line.{max_chars};
ghost use Rattle.table.specs.Answers.{table_of};
ghost use Rattle.edge.specs.Edge.{Edge};
ghost use Rattle.lattice.specs.Lattice.{add_all};
ghost use Rattle.lattice.specs.Kept.{Holds, SameBehind};
ghost use Rattle.numbers.specs.Ready.{Ready, Offsets};
ghost use Rattle.numbers.specs.CallEdge.{CallEdges};
ghost use Rattle.numbers.specs.Fractions.{new_edges, fractions};
ghost use Rattle.fractions.specs.Outcomes.{outcomes_of};
ghost use Rattle.fractions.specs.Planned.{Planned};

use fraction_choices::decision::Choice;
use lattice::Lattice;
use table::shape::Shape;
use text::Place;
use text::check::{MAX_CHARS, PLACES};

// The edges that the choices of all places make are added.
fn add_all(
    work: &mut [u8],
    lattice: Lattice,
    choices: &[Option<Choice>; MAX_CHARS],
    places: usize,
) -> Lattice
    requires { ((es : List Edge) × Planned places work.old lattice es choices.now)
        × (places ≤ max_chars) }
    ensures { SameBehind work.old work.new
        × ((es : List Edge)
        → Planned places work.old lattice es choices.now
        → Holds work.new result (add_all es
        (new_edges (outcomes_of es choices.now 0 places)))) }
{
    let mut grown = lattice;
    for p in 0..places {
        grown = crate::new_edge::add_choice(work, grown, Place(p), choices[p]);
    }
    grown
}

// The stage of fractions and percentages. A lattice that is full stays as it is, and so does one of a line without markers.
pub fn fractions(
    work: &mut [u8],
    lattice: Lattice,
    line: &[u8],
    offs: &[usize; PLACES],
    table: &[u8],
    shape: Shape,
    places: usize,
) -> Lattice
    requires { Ready line.now table.now shape places
        × ((es : List Edge) × Holds work.old lattice es × CallEdges places es) × Offsets line.now offs.now }
    ensures { SameBehind work.old work.new
        × ((es : List Edge) → Holds work.old lattice es → CallEdges places es
        → Holds work.new result (fractions (table_of table.now shape)
        (chars line.now) es)) }
{
    if lattice.len == 0 {
        return lattice;
    }
    if !markers::any::any_marker(line, offs, table, shape, places) {
        return lattice;
    }
    let mut choices = [None; MAX_CHARS];
    fraction_choices::choose(
        work,
        lattice,
        line,
        offs,
        table,
        shape,
        places,
        &mut choices,
    );
    crate::deactivate::turn_off_all(work, lattice, &choices, places);
    add_all(work, lattice, &choices, places)
}
