// The edges that the choices of all places use turn inactive (01, "The rest of the call", the stage of fractions and percentages).
ghost use Rattle.std.specs.Prelude.{◌≡◌, List, ◌≤◌, ◌<◌};
ghost use Rattle.edge.specs.Edge.{Edge};
ghost use Rattle.lattice.specs.Lattice.{turn_off_at, turn_off};
ghost use Rattle.lattice.specs.Kept.{Holds, SameBehind};
ghost use Rattle.numbers.specs.Fractions.{used_edges};
ghost use Rattle.fraction_choices.specs.Choice.{Valid};
ghost use Rattle.fractions.specs.Outcomes.{outcomes_of, used_by, AllValid};
ghost use Rattle.text.specs.Line.{max_chars};

use fraction_choices::decision::{Choice, Form};
use lattice::Lattice;
use text::check::MAX_CHARS;

// Two edges turn inactive.
fn turn_off_both(work: &mut [u8], lattice: Lattice, left: usize, right: usize)
    requires { ((es : List Edge) × Holds work.old lattice es) × (lattice.len ≡ 0 → ⊥) × (left < lattice.count)
        × (right < lattice.count) }
    ensures { SameBehind work.old work.new
        × ((es : List Edge) → Holds work.old lattice es
        → Holds work.new lattice (turn_off_at (turn_off_at es left) right)) }
{
    lattice::turn_off(work, lattice, left);
    lattice::turn_off(work, lattice, right);
}

// The edges that a choice uses turn inactive.
fn turn_off_used(work: &mut [u8], lattice: Lattice, choice: Option<Choice>)
    requires { ((es : List Edge) × Holds work.old lattice es × Valid es choice) × (lattice.len ≡ 0 → ⊥) }
    ensures { SameBehind work.old work.new
        × ((es : List Edge) → Holds work.old lattice es
        → Holds work.new lattice (turn_off es (used_by choice))) }
{
    let Some(c) = choice else {
        return;
    };
    match c.form {
        Form::Percent | Form::Fraction => turn_off_both(work, lattice, c.left, c.right),
        Form::TxtPercent => lattice::turn_off(work, lattice, c.right),
    }
}

// The edges that the choices of all places use turn inactive.
pub fn turn_off_all(
    work: &mut [u8],
    lattice: Lattice,
    choices: &[Option<Choice>; MAX_CHARS],
    places: usize,
)
    requires { ((es : List Edge) × Holds work.old lattice es
        × AllValid es choices.now places) × (lattice.len ≡ 0 → ⊥) × (places ≤ max_chars) }
    ensures { SameBehind work.old work.new
        × ((es : List Edge) → Holds work.old lattice es
        → AllValid es choices.now places
        → Holds work.new lattice (turn_off es
        (used_edges (outcomes_of es choices.now 0 places)))) }
{
    // Kept beside `add_all`: what the two have alike is the `for` alone, and a step handed over would be longer than its line.
    for p in 0..places {
        turn_off_used(work, lattice, choices[p]);
    }
}
