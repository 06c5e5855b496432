// A new regular edge is written behind the lattice's listing, where 2,048 bytes are free, and added. `lattice_add::numeric` adds a numeric one.
ghost use Rattle.std.specs.Prelude.{List, ◌+◌, ◌≤◌, ◌<◌, length};
ghost use Rattle.edge.specs.Edge.{Edge};
ghost use Rattle.edge.specs.Write.{regular};
ghost use Rattle.lattice.specs.Lattice.{add};
ghost use Rattle.lattice.specs.Kept.{Holds, SameBehind};
ghost use Rattle.fields.specs.Fields.{u16_limit};

use lattice::Lattice;
use text::Place;

// A regular edge is added.
pub fn add_regular(
    work: &mut [u8],
    lattice: Lattice,
    start: Place,
    end: Place,
    ty: &[u8],
    txt: &[u8],
) -> Lattice
    requires { ((es : List Edge) × Holds work.old lattice es) × (start.0 < u16_limit) × (end.0 < u16_limit)
        × (length ty.now + length txt.now ≤ 2000) }
    ensures { SameBehind work.old work.new
        × ((es : List Edge) → Holds work.old lattice es
        → Holds work.new result (add es (regular start.0 end.0 ty.now txt.now))) }
{
    let written = edge_write::regular::write_regular(work, lattice.len, start, end, ty, txt);
    crate::add_written(work, lattice, 8 + ty.len() + txt.len(), written)
}
