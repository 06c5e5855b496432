// A copy of an edge that stands in the lattice, with a text before its txt (01, F1). It is composed behind the listing, where 2,048 bytes are free.
ghost use Rattle.std.specs.Prelude.{◌≡◌, List, ◌+◌, ◌-◌, ◌*◌, ◌≤◌, ◌<◌, length};
ghost use Rattle.std.proofs.lemmas.List.Edits.{sets};
ghost use Rattle.fields.specs.Part.{part};
ghost use Rattle.fields.specs.Fields.{u16_limit};
ghost use Rattle.edge.specs.Edge.{Edge};
ghost use Rattle.edge.specs.Write.{Put};
ghost use Rattle.lattice.specs.Lattice.{add};
ghost use Rattle.lattice.specs.Kept.{Holds, SameBehind};
ghost use Rattle.lattice_add.specs.Copy.{prefixed, prefixed_bytes, Source};

use lattice::Lattice;

// Copies so many bytes of the work space to an offset behind them.
fn copy_inside(work: &mut [u8], from: usize, to: usize, size: usize)
    requires { (from + size ≤ to) × (to + size ≤ length work.old) }
    ensures { work.new ≡ sets work.old to (part work.old from size) }
{
    let (before, behind) = work.split_at_mut(to);
    fields::copy::copy_in(behind, 0, &before[from..from + size]);
}

// Composes from len on the bytes from at to the offset to, with sep before the string of so many bytes at txt. The string's length stands before it.
fn compose(
    work: &mut [u8],
    len: usize,
    at: usize,
    txt: usize,
    size: usize,
    to: usize,
    sep: &[u8],
) -> usize
    requires { (at + 2 ≤ txt) × (txt ≤ to) × (to ≤ len) × (len + (to - at) + length sep.now ≤ length work.old)
        × (length sep.now + size < u16_limit) }
    ensures { (result ≡ len + (to - at) + length sep.now)
        × Put work.old work.new len result
        (prefixed_bytes work.old at txt size to sep.now) }
{
    let head = txt - 2 - at;
    let behind = len + head + 2;
    copy_inside(work, at, len, head);
    fields::write::put_u16(work, len + head, (sep.len() + size) as u16);
    fields::copy::copy_in(work, behind, sep);
    copy_inside(work, txt, behind + sep.len(), to - txt);
    behind + sep.len() + (to - txt)
}

// The edge that stands in the listing from at to the offset next is added once more, with sep before its txt.
pub fn add_copy(work: &mut [u8], lattice: Lattice, at: usize, next: usize, sep: &[u8]) -> Lattice
    requires { ((es : List Edge) × Holds work.old lattice es)
        × ((e : Edge) × Source work.old lattice.len at next (length sep.now) e) }
    ensures { SameBehind work.old work.new
        × ((es : List Edge) (e : Edge) → Holds work.old lattice es
        → Source work.old lattice.len at next (length sep.now) e
        → Holds work.new result (add es (prefixed sep.now e))) }
{
    let len = lattice.len;
    let v = edge::head::edge_at(work, at);
    let txt = v.txt;
    let key = v.fields.0 - at - 2 + sep.len();
    let to = compose(work, len, at, txt.at.0, txt.len, next, sep);
    crate::add_edge(work, lattice, key, to)
}
