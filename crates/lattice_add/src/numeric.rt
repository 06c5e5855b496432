// A new numeric edge is written behind the lattice's listing, where 2,048 bytes are free, and added. `lattice_add::regular` adds a regular one.
ghost use Rattle.std.specs.Prelude.{List, ◌+◌, ◌≤◌, ◌<◌, length};
ghost use Rattle.edge.specs.Edge.{Edge};
ghost use Rattle.edge.specs.Write.{numeric, Writable};
ghost use Rattle.lattice.specs.Lattice.{add};
ghost use Rattle.lattice.specs.Kept.{Holds, SameBehind};
ghost use Rattle.fields.specs.Fields.{u16_limit};

use edge::NumFields;
use lattice::Lattice;
use text::Place;

// A numeric edge is added. The texts of its data are parts of orig (orig_txt), script and value (value_s).
pub fn add_numeric(
    work: &mut [u8],
    lattice: Lattice,
    start: Place,
    end: Place,
    ty: &[u8],
    txt: &[u8],
    num: NumFields,
    orig: &[u8],
    script: &[u8],
    value: &[u8],
) -> Lattice
    requires { ((es : List Edge) × Holds work.old lattice es) × (start.0 < u16_limit) × (end.0 < u16_limit)
        × Writable orig.now script.now value.now num
        × (length ty.now + length txt.now + num.orig.len + num.script.len + num.value_s.len ≤ 1990) }
    ensures { SameBehind work.old work.new
        × ((es : List Edge) → Holds work.old lattice es
        → Holds work.new result (add es (numeric start.0 end.0 ty.now txt.now
        orig.now script.now value.now num))) }
{
    let written = edge_write::numeric::write_numeric(
        work,
        lattice.len,
        start,
        end,
        ty,
        txt,
        num,
        orig,
        script,
        value,
    );
    crate::add_written(work, lattice, 8 + ty.len() + txt.len(), written)
}
