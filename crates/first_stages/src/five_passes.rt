// The five passes on the list in the work space, behind the lattice (01, "Five passes, D1 to G4").
ghost use Rattle.std.specs.Prelude.{◌≡◌, ◌+◌, ◌*◌, ◌≤◌, suc, ◌<◌, Bool, List, map, length, drop};
ghost use Rattle.text.specs.Text.{chars};
ghost use Rattle.text.specs.Line.{max_chars};
ghost use Rattle.pass_list.specs.Edges.{points_of};
ghost use Rattle.pass_list.specs.Stored.{stored_at, stored_list_at};
ghost use Rattle.pass_list.specs.InTurn.{of_kind};
ghost use Rattle.pass_list.specs.Layout.{SIZE};
ghost use Rattle.pass_list.specs.Kind.{kind_number};
ghost use Rattle.numbers.specs.Ready.{Offsets, work_size};
ghost use Rattle.edge.specs.Edge.{Edge};
ghost use Rattle.lattice.specs.Lattice.{add_all};
ghost use Rattle.lattice.specs.Kept.{Holds, END, SameBehind};
ghost use Rattle.pass_edge.specs.Grounded.{Grounded, AllGrounded};
ghost use Rattle.pass_edge.specs.Adding.{Addable, Added, listed_of, add_if};
ghost use Rattle.first_stages.specs.Five.{PassList, OnePass, FivePasses};

use lattice::Lattice;
use pass_list::layout::SIZE;
use pass_list::read::kind_at;
use pass_list::record::PassEdge;
use table::layout::MAX_STRING;
use text::Place;
use text::check::{MAX_CHARS, PLACES};

// A joined stored edge is added: its type is the pass, its txt its digits or its value.
fn add_joined(
    work: &mut [u8],
    lattice: Lattice,
    line: &[u8],
    offs: &[usize; PLACES],
    table: &[u8],
    edge: PassEdge,
) -> Lattice
    requires { Addable work.old lattice line.now offs.now table.now edge
        × (kind_number edge.kind ≡ 0 → ⊥) }
    ensures { Added line.now table.now edge work.old lattice
        work.new result }
{
    let mut ty = [0u8; MAX_STRING];
    let mut txt = [0u8; MAX_CHARS];
    let ty_len = pass_edge::edge_type::type_of(&mut ty, table, edge);
    let len = pass_edge::txt::txt_of(&mut txt, line, offs, table, edge);
    pass_edge::listed::add_texts(
        work,
        lattice,
        line,
        offs,
        table,
        edge,
        None,
        &ty[..ty_len],
        &txt[..len],
    )
}

// Kept with the kind as its number: the i-th pass has the number i + 1, and the definition `of_kind` picks by it.
// The i-th stored edge of the list behind the lattice is added, if it is of this kind. The others are told by their kind alone: most are of another.
fn add_if(
    work: &mut [u8],
    lattice: Lattice,
    line: &[u8],
    offs: &[usize; PLACES],
    table: &[u8],
    i: usize,
    kind: u16,
) -> Lattice
    requires { ((es : List Edge) × Holds work.old lattice es) × Offsets line.now offs.now
        × (length (chars line.now) ≤ max_chars)
        × ((b : Bool) × Grounded (points_of b (chars line.now)) (chars line.now) table.now
        (stored_at (drop END work.old) (i * SIZE)))
        × (END + i * SIZE + SIZE ≤ length work.old) × (kind ≡ 0 → ⊥) }
    ensures { SameBehind work.old work.new
        × ((es : List Edge) → Holds work.old lattice es
        → Holds work.new result (add_if (chars line.now) table.now kind es
        (stored_at (drop END work.old) (i * SIZE)))) }
{
    let at = lattice::END + i * SIZE;
    let found = u16::from(kind_at(work, at));
    if found != kind {
        return lattice;
    }
    let x = pass_list::read::read_edge(work, at);
    add_joined(work, lattice, line, offs, table, x)
}

// The stage: of the stored edges of the list behind the lattice, those of a kind are added in turn.
fn add_of_kind(
    work: &mut [u8],
    lattice: Lattice,
    line: &[u8],
    offs: &[usize; PLACES],
    table: &[u8],
    stored: usize,
    kind: u16,
) -> Lattice
    requires { ((es : List Edge) × Holds work.old lattice es) × Offsets line.now offs.now
        × (length (chars line.now) ≤ max_chars)
        × AllGrounded (chars line.now) table.now (stored_list_at (drop END work.old) 0 stored)
        × (END + stored * SIZE ≤ length work.old) × (kind ≡ 0 → ⊥) }
    ensures { SameBehind work.old work.new
        × ((es : List Edge) → Holds work.old lattice es
        → Holds work.new result (add_all es
        (map (listed_of (chars line.now) table.now)
        (of_kind kind (stored_list_at (drop END work.old) 0 stored))))) }
{
    // two words, not a structure: one that is handed back in two pieces and copied as a whole makes the processor wait
    let mut count = lattice.count;
    let mut len = lattice.len;
    for i in 0..stored {
        let done = add_if(work, Lattice { count, len }, line, offs, table, i, kind);
        count = done.count;
        len = done.len;
    }
    Lattice { count, len }
}

// The i-th pass, and the edges that it joins are added to the lattice.
fn one_pass(
    work: &mut [u8],
    lattice: Lattice,
    line: &[u8],
    offs: &[usize; PLACES],
    table: &[u8],
    stored: usize,
    i: usize,
) -> Result<(Lattice, usize), Place>
    requires { ((es : List Edge) × Holds work.old lattice es) × Offsets line.now offs.now
        × (length (chars line.now) ≤ max_chars) × (work_size ≤ length work.old)
        × PassList (chars line.now) table.now (suc i) work.old stored × (i < 5) }
    ensures { OnePass (chars line.now) table.now i work.old lattice stored
        work.new result }
{
    let k = pass_run::nth::pass_behind(work, lattice::END, stored, i)?;
    // as many edges as before: none is joined
    if k == stored {
        return Ok((lattice, k));
    }
    let m = add_of_kind(work, lattice, line, offs, table, k, (i + 1) as u16);
    Ok((m, k))
}

// The five passes in turn over the stored edges behind the lattice.
pub fn five_passes(
    work: &mut [u8],
    lattice: Lattice,
    line: &[u8],
    offs: &[usize; PLACES],
    table: &[u8],
    stored: usize,
) -> Result<(Lattice, usize), Place>
    requires { ((es : List Edge) × Holds work.old lattice es) × Offsets line.now offs.now
        × (length (chars line.now) ≤ max_chars) × (work_size ≤ length work.old)
        × PassList (chars line.now) table.now 1 work.old stored }
    ensures { FivePasses (chars line.now) table.now work.old lattice stored
        work.new result }
{
    let mut grown = lattice;
    let mut count = stored;
    for i in 0..5 {
        (grown, count) = one_pass(work, grown, line, offs, table, count, i)?;
    }
    Ok((grown, count))
}
