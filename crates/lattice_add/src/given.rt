// An edge of the caller's listing is added to the lattice where it is new and has room. `lattice_add` adds one that is composed behind the lattice's own.
ghost use Rattle.std.specs.Prelude.{◌≡◌, List, ◌+◌, ◌≤◌, length};
ghost use Rattle.edge.specs.Edge.{Edge};
ghost use Rattle.edge.specs.Layout.{map_at, next_at, edge_at};
ghost use Rattle.lattice.specs.Lattice.{add};
ghost use Rattle.lattice.specs.Kept.{Holds, SameBehind};

use lattice::{Adding, Lattice};

// The regular edge that stands in a listing from at to the offset to is added. It may be longer than the room behind the lattice's listing.
pub fn add_given(work: &mut [u8], lattice: Lattice, given: &[u8], at: usize, to: usize) -> Lattice
    requires { ((es : List Edge) × Holds work.old lattice es) × (map_at given.now at ≡ 0)
        × (to ≡ next_at given.now at) × (to ≤ length given.now) }
    ensures { SameBehind work.old work.new
        × ((es : List Edge) → Holds work.old lattice es
        → Holds work.new result (add es (edge_at given.now at))) }
{
    let len = lattice.len;
    let plan = lattice::find::plan_add(work, lattice, given, at, to - at - 2, to);
    if let Adding::Into(_) = plan {
        fields::copy::copy_in(work, len, &given[at..to]);
    }
    crate::add_planned(work, lattice, plan, len + (to - at))
}
