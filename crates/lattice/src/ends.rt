// The lattice without edges, and its listing in the output (01: "Output order").
ghost use Rattle.std.specs.Prelude.{◌≡◌, List, [], ◌≤◌, length};
ghost use Rattle.edge.specs.Edge.{Edge};
ghost use Rattle.lattice.specs.Kept.{Holds, finished, finished_out, END, SameBehind};

use crate::{END, HEADS, Lattice};

// A lattice without edges.
pub fn empty(work: &mut [u8]) -> Lattice
    requires { END ≤ length work.old }
    ensures { SameBehind work.old work.new × Holds work.new result [] }
{
    fields::write::put_u16(work, 0, 0);
    work[HEADS..END].fill(0);
    Lattice { count: 0, len: 2 }
}

// The listing goes to the output, or is refused: the output is then as it was.
pub fn finish(work: &[u8], lattice: Lattice, out: &mut [u8]) -> Option<usize>
    requires { (es : List Edge) × Holds work.now lattice es }
    ensures answer { (es : List Edge) → Holds work.now lattice es
        → result ≡ finished (length out.old) es }
    ensures output { (es : List Edge) → Holds work.now lattice es
        → out.new ≡ finished_out out.old es }
{
    let len = lattice.len;
    if lattice.len == 0 {
        return None;
    }
    if out.len() < len {
        return None;
    }
    fields::copy::copy_in(out, 0, &work[..len]);
    Some(len)
}
