// The ways in which an edge comes into the lattice: one that is composed behind the listing is added where it is new and has room.
#![tactic(auto)]

pub mod given; // given.rt: an edge of the caller's listing
pub mod regular; // regular.rt: a new regular edge
pub mod numeric; // numeric.rt: a new numeric edge
pub mod copy; // copy.rt: a copy of an edge, with a text before its txt

ghost use Rattle.std.specs.Prelude.{List, ◌+◌, Option};
ghost use Rattle.edge.specs.Edge.{Edge};
ghost use Rattle.lattice.specs.Lattice.{add};
ghost use Rattle.lattice.specs.Kept.{Stands, Holds, SameBehind};
ghost use Rattle.lattice_add.specs.Planned.{Planned, WrittenBehind};

use lattice::{Adding, Lattice};

// What is planned for an edge is done. One that goes into a bucket stands behind the listing, up to an offset.
fn add_planned(work: &mut [u8], lattice: Lattice, plan: Adding, to: usize) -> Lattice
    requires { (es : List Edge) × (e : Edge) × Planned work.old lattice es e plan to }
    ensures { SameBehind work.old work.new
        × ((es : List Edge) (e : Edge) → Planned work.old lattice es e plan to
        → Holds work.new result (add es e)) }
{
    let count = lattice.count;
    let len = lattice.len;
    match plan {
        Adding::Nothing => lattice,
        Adding::TooMuch => Lattice { count, len: 0 },
        Adding::Into(bucket) => {
            lattice::link::link(work, count, len, bucket);
            Lattice {
                count: count + 1,
                len: to,
            }
        }
    }
}

// The edge that is composed behind the listing, up to an offset and with a key of so many bytes, is added.
pub fn add_edge(work: &mut [u8], lattice: Lattice, size: usize, to: usize) -> Lattice
    requires { ((es : List Edge) × Holds work.old lattice es)
        × ((e : Edge) × Stands work.old lattice.len size to e) }
    ensures { SameBehind work.old work.new
        × ((es : List Edge) (e : Edge) → Holds work.old lattice es
        → Stands work.old lattice.len size to e → Holds work.new result (add es e)) }
{
    let plan = lattice::find::plan_add(work, lattice, work, lattice.len, size, to);
    add_planned(work, lattice, plan, to)
}

// The edge that a writer has left behind the listing is added: it had room, and ends at an offset.
fn add_written(work: &mut [u8], lattice: Lattice, size: usize, written: Option<usize>) -> Lattice
    requires { (es : List Edge) × (e : Edge) × WrittenBehind work.old lattice es e size written }
    ensures { SameBehind work.old work.new
        × ((es : List Edge) (e : Edge) → WrittenBehind work.old lattice es e size written
        → Holds work.new result (add es e)) }
{
    match written {
        Some(to) => add_edge(work, lattice, size, to),
        None => lattice,
    }
}
