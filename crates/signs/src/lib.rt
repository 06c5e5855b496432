// G6: signs directly before a number (01, "The rest of the call"): a regular edge from each sign on, minus before plus, in the table's order.
#![tactic(auto)]

pub mod edges; // edges.rt: the edges for the signs before one edge

ghost use Rattle.std.specs.Prelude.{List, map, ℕ, ◌+◌, ◌*◌, ◌≤◌, length, drop};
ghost use Rattle.text.specs.Text.{chars};
ghost use Rattle.table.specs.Answers.{table_of};
ghost use Rattle.edge.specs.Edge.{Edge};
ghost use Rattle.lattice.specs.Lattice.{add_all};
ghost use Rattle.lattice.specs.Kept.{Holds, END, SameBehind};
ghost use Rattle.pass_list.specs.StoredEdge.{StoredEdge, EdgeIs};
ghost use Rattle.pass_list.specs.Stored.{stored_list_at};
ghost use Rattle.pass_list.specs.Edges.{edge_of};
ghost use Rattle.pass_list.specs.Layout.{SIZE};
ghost use Rattle.numbers.specs.Ready.{Ready, Offsets};
ghost use Rattle.pass_edge.specs.Grounded.{AllGrounded, StoredIs};
ghost use Rattle.numbers.specs.Signs.{signs};
ghost use Rattle.signs.specs.SignsOf.{signs_of};

use lattice::Lattice;
use pass_list::layout::SIZE;
use pass_list::record::PassEdge;
use table::shape::Shape;
use text::check::PLACES;

// The edges for the signs before a stored edge: only where it has a value, minus before plus. None stands before the line's first place.
fn add_edge_signs(
    work: &mut [u8],
    lattice: Lattice,
    line: &[u8],
    offs: &[usize; PLACES],
    table: &[u8],
    shape: Shape,
    edge: PassEdge,
) -> Lattice
    requires { ((es : List Edge) × Holds work.old lattice es) × Offsets line.now offs.now
        × ((i : StoredEdge) × StoredIs line.now table.now edge i)
        × ((n : ℕ) × Ready line.now table.now shape n) }
    ensures { SameBehind work.old work.new
        × ((es : List Edge) (i : StoredEdge) → Holds work.old lattice es → EdgeIs edge i
        → Holds work.new result (add_all es
        (signs_of (table_of table.now shape) (chars line.now)
        (edge_of (chars line.now) table.now i)))) }
{
    if edge.start.0 == 0 || !edge.num.has_value {
        return lattice;
    }
    let minus = crate::edges::add_signs_of(
        work,
        lattice,
        line,
        offs,
        table,
        shape.minus,
        edge,
        b'-',
    );
    crate::edges::add_signs_of(work, minus, line, offs, table, shape.plus, edge, b'+')
}

// G6: the edges for the signs before the stored edges of the pass list after G4.
pub fn add_signs(
    work: &mut [u8],
    lattice: Lattice,
    line: &[u8],
    offs: &[usize; PLACES],
    table: &[u8],
    shape: Shape,
    stored: usize,
) -> Lattice
    requires { ((es : List Edge) × Holds work.old lattice es) × Offsets line.now offs.now
        × ((m : ℕ) × Ready line.now table.now shape m)
        × AllGrounded (chars line.now) table.now (stored_list_at (drop END work.old) 0 stored)
        × (END + stored * SIZE ≤ length work.old) }
    ensures { SameBehind work.old work.new
        × ((es : List Edge) → Holds work.old lattice es
        → Holds work.new result (add_all es
        (signs (table_of table.now shape) (chars line.now)
        (map (edge_of (chars line.now) table.now)
        (stored_list_at (drop END work.old) 0 stored))))) }
{
    let list = lattice::END;
    let mut grown = lattice;
    for i in 0..stored {
        let x = pass_list::read::read_edge(&work[list..], i * SIZE);
        grown = add_edge_signs(work, grown, line, offs, table, shape, x);
    }
    grown
}
