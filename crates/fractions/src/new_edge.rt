// The edge that a choice makes is added to the lattice (01, "Fractions and percentages"): its texts are composed in local buffers. `fractions::parts` has its parts, and the form that takes a txt.
ghost use Rattle.std.specs.Prelude.{◌≡◌, List, ℕ, ◌<◌, get_or};
ghost use Rattle.edge.specs.Edge.{Edge};
ghost use Rattle.lattice.specs.Lattice.{add};
ghost use Rattle.lattice.specs.Kept.{no_edge, Holds, SameBehind};
ghost use Rattle.fraction_choices.specs.Choice.{outcome_of, value_or, Two};
ghost use Rattle.fractions.specs.NewParts.{HoldsCall};
ghost use Rattle.fractions.specs.NewEdge.{percent_of, fraction_of, HoldsChoice, add_outcome};
ghost use Rattle.fields.specs.Fields.{u16_limit};

use crate::texts::TEXT_ROOM;
use fraction_choices::decision::{Choice, Form};
use lattice::Lattice;
use text::Place;

// "right%" over all three.
fn add_percent(work: &mut [u8], lattice: Lattice, left: usize, right: usize) -> Lattice
    requires { ((n : ℕ) × ((es : List Edge) × HoldsCall n work.old lattice es × Two es left right))
        × (lattice.len ≡ 0 → ⊥) }
    ensures { SameBehind work.old work.new × ((n : ℕ) (es : List Edge)
        → HoldsCall n work.old lattice es → Two es left right
        → Holds work.new result (add es (percent_of es left right))) }
{
    let a = crate::parts::head_of(work, lattice, left);
    let b = crate::parts::head_of(work, lattice, right);
    let v = crate::parts::value_of(work, lattice, right);
    let mut buf = [0u8; TEXT_ROOM];
    let n = crate::texts::put_percent(&mut buf, v);
    lattice_add::regular::add_regular(work, lattice, a.start, b.end, b"percentage", &buf[..n])
}

// "right/left" over all three.
fn add_fraction(work: &mut [u8], lattice: Lattice, left: usize, right: usize) -> Lattice
    requires { ((n : ℕ) × ((es : List Edge) × HoldsCall n work.old lattice es × Two es left right
        × (0 < value_or (get_or es left no_edge)))) × (lattice.len ≡ 0 → ⊥) }
    ensures { SameBehind work.old work.new × ((n : ℕ) (es : List Edge)
        → HoldsCall n work.old lattice es → Two es left right
        → Holds work.new result (add es (fraction_of es left right))) }
{
    let a = crate::parts::head_of(work, lattice, left);
    let b = crate::parts::head_of(work, lattice, right);
    let lv = crate::parts::value_of(work, lattice, left);
    let rv = crate::parts::value_of(work, lattice, right);
    let mut buf = [0u8; TEXT_ROOM];
    let mut script = [0u8; TEXT_ROOM];
    let n = crate::texts::put_fraction(&mut buf, rv, lv);
    let s = crate::parts::copy_script(&mut script, work, b.map, b.fields.0);
    let q = passes::ratio::lowest(rv, lv);
    crate::parts::add_composed(work, lattice, a.start, b.end, &buf[..n], q, s, &script)
}

// The edge that the choice at a place makes is added; a lattice that is full stays as it is.
pub fn add_choice(
    work: &mut [u8],
    lattice: Lattice,
    place: Place,
    choice: Option<Choice>,
) -> Lattice
    requires { ((n : ℕ) × ((es : List Edge) × HoldsChoice n work.old lattice es choice)) × (place.0 < u16_limit) }
    ensures { SameBehind work.old work.new
        × ((n : ℕ) (es : List Edge) → HoldsChoice n work.old lattice es choice
        → Holds work.new result (add_outcome es (outcome_of es place.0 choice))) }
{
    if lattice.len == 0 {
        return lattice;
    }
    let Some(c) = choice else {
        return lattice;
    };
    match c.form {
        Form::Percent => add_percent(work, lattice, c.left, c.right),
        Form::Fraction => add_fraction(work, lattice, c.left, c.right),
        Form::TxtPercent => crate::parts::add_txt_percent(work, lattice, place, c.right),
    }
}
