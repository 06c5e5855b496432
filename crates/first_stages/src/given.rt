// The edges given to the call come first into the lattice (01, "Output order": "order of first addition, given edges first").
ghost use Rattle.std.specs.Prelude.{◌≡◌, true, List, ℕ, Ok};
ghost use Rattle.edge.specs.Edge.{Edge};
ghost use Rattle.edge.specs.Layout.{listed};
ghost use Rattle.edge.specs.Check.{check_listing};
ghost use Rattle.lattice.specs.Lattice.{add_all};
ghost use Rattle.lattice.specs.Kept.{Holds, SameBehind};

use lattice::Lattice;

// The edges of an accepted listing are added, one after the other from its front.
pub fn add_all_given(work: &mut [u8], lattice: Lattice, given: &[u8], count: usize) -> Lattice
    requires { ((es : List Edge) × Holds work.old lattice es)
        × ((n : ℕ) × (check_listing true n given.now ≡ Ok count)) }
    ensures { SameBehind work.old work.new
        × ((es : List Edge) → Holds work.old lattice es
        → Holds work.new result (add_all es (listed given.now))) }
{
    let mut grown = lattice;
    let mut at = 2;
    for _ in 0..count {
        let next = edge::next::next_at(given, at);
        grown = lattice_add::given::add_given(work, grown, given, at, next);
        at = next;
    }
    grown
}
