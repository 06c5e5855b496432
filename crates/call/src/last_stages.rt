// The stages after the five passes, in turn (01, "The rest of the call"): fractions and percentages, signs, separators, in the second call singles that may not stand (02, S-12),
// the fallback.
ghost use Rattle.std.specs.Prelude.{List, map, ℕ, ◌+◌, ◌*◌, ◌≤◌, length};
ghost use Rattle.text.specs.Text.{chars};
ghost use Rattle.text.specs.Line.{max_chars};
ghost use Rattle.table.specs.Answers.{table_of};
ghost use Rattle.edge.specs.Edge.{Edge};
ghost use Rattle.lattice.specs.Kept.{Holds, END, SameBehind};
ghost use Rattle.pass_list.specs.Edges.{edge_of};
ghost use Rattle.pass_list.specs.Layout.{SIZE};
ghost use Rattle.numbers.specs.Ready.{Ready, Offsets};
ghost use Rattle.numbers.specs.CallEdge.{CallEdges};
ghost use Rattle.pass_edge.specs.Grounded.{AllGrounded};
ghost use Rattle.first_stages.specs.Five.{listed_stored, behind};
ghost use Rattle.call.specs.Rest.{apart_by, rest_of};

use lattice::Lattice;
use table::shape::Shape;
use text::check::PLACES;

// F1, and then, where silencing is asked for, singles that may not stand turn inactive; count stored edges are in the list after G4.
fn set_apart(
    work: &mut [u8],
    lattice: Lattice,
    line: &[u8],
    offs: &[usize; PLACES],
    count: usize,
    silencing: bool,
) -> Lattice
    requires { Offsets line.now offs.now × (length (chars line.now) ≤ max_chars)
        × ((table : List ℕ) × AllGrounded (chars line.now) table (behind work.old count))
        × (END + count * SIZE ≤ length work.old)
        × ((n : ℕ) × (n ≤ max_chars) × ((es : List Edge) × Holds work.old lattice es × CallEdges n es)) }
    ensures { SameBehind work.old work.new
        × ((table : List ℕ) (n : ℕ) (es : List Edge) → n ≤ max_chars
        → AllGrounded (chars line.now) table (behind work.old count)
        → Holds work.old lattice es → CallEdges n es
        → Holds work.new result
        (apart_by silencing (map (edge_of (chars line.now) table) (behind work.old count)) es)) }
{
    let apart = separators::separate(work, lattice);
    // Kept as a flag: one `if` over one stage; as a closure its contract of seven lines would go through three functions.
    if silencing {
        singles::silence_singles(work, apart, line, offs, count);
    }
    apart
}

// The stages after the passes, for a line of so many places; so many stored edges are in the list after G4.
pub fn run_last_stages(
    work: &mut [u8],
    lattice: Lattice,
    line: &[u8],
    offs: &[usize; PLACES],
    table: &[u8],
    shape: Shape,
    places: usize,
    stored: usize,
    silencing: bool,
) -> Lattice
    requires { Ready line.now table.now shape places
        × ((es : List Edge) × Holds work.old lattice es × CallEdges places es) × Offsets line.now offs.now
        × AllGrounded (chars line.now) table.now (behind work.old stored)
        × CallEdges places (listed_stored (chars line.now) table.now (behind work.old stored))
        × (END + stored * SIZE ≤ length work.old) }
    ensures { (es : List Edge) → Holds work.old lattice es → CallEdges places es
        → Holds work.new result (rest_of silencing (table_of table.now shape) (chars line.now)
        (map (edge_of (chars line.now) table.now) (behind work.old stored)) es) }
{
    let made = fractions::fractions(work, lattice, line, offs, table, shape, places);
    let signed = signs::add_signs(work, made, line, offs, table, shape, stored);
    let apart = set_apart(work, signed, line, offs, stored, silencing);
    fallback::fallback(work, apart, line, offs, places)
}
