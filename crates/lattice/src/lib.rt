// The lattice, kept in lent work space (the Rust's lattice/mod.rs): edges are added once (01: "edges equal in start, end, txt and type are one, the first"),
// turned inactive, and written to the output in the order of their first addition. The layout of the work space is in specs/Kept.antt; `lattice_add` adds an edge.
#![tactic(auto)]

pub mod ends; // ends.rt: the lattice without edges, and its listing in the output
pub mod find; // find.rt: whether it has an edge already, or room for it
pub mod link; // link.rt: its cells with one edge more

ghost use Rattle.std.specs.Prelude.{◌≡◌, false, List, ◌<◌};
ghost use Rattle.edge.specs.Edge.{Edge};
ghost use Rattle.lattice.specs.Lattice.{turn_off_at};
ghost use Rattle.lattice.specs.Kept.{offset, inactive_map, Holds, SameBehind};

use edge::bits;

// The layout of the work space: where the offset of each edge, the last earlier edge of its bucket, and the last edge of each bucket stand (edges count
// from 1 there), and where the lattice ends.
const OFFSETS: usize = 34816;

const NEXTS: usize = 36864;

const HEADS: usize = 38912;

pub const END: usize = 39424;

// What a listing may hold.
const MOST_EDGES: usize = 1024;

pub const MOST_BYTES: usize = 32768;

// A lattice: how many edges, and the length of their listing; 0, which no listing has, where they became too many or too long.
// Kept as a length of 0, and not as an Option: `Holds` and the clauses of every crate that passes a lattice on say the full one by it, and a full one is passed on like any other.
#[derive(Clone, Copy)]
pub struct Lattice {
    pub count: usize,
    pub len: usize,
}

// What is to be done with an edge: nothing, as it is there or the lattice is full; the lattice becomes full; it goes into a bucket.
// Kept as an enum of its own: it has three kinds (nothing to add, no room, the bucket), one more than Option or Result has.
#[derive(Clone, Copy)]
pub enum Adding {
    Nothing,
    TooMuch,
    Into(usize),
}

// Where the i-th edge stands in the listing.
pub fn offset_at(work: &[u8], lattice: Lattice, i: usize) -> usize
    requires { ((es : List Edge) × Holds work.now lattice es) × (lattice.len ≡ 0 → ⊥) × (i < lattice.count) }
    ensures { (es : List Edge) → Holds work.now lattice es → result ≡ offset es i }
{
    fields::u16_at(work, OFFSETS + 2 * i) as usize
}

// A map without the bit of active edges.
fn inactive_map(map: u16) -> u16
    ensures { result ≡ inactive_map map }
{
    if edge::bit(map, bits::ACTIVE) {
        map - bits::ACTIVE
    } else {
        map
    }
}

// The i-th edge turns inactive.
pub fn turn_off(work: &mut [u8], lattice: Lattice, i: usize)
    requires { ((es : List Edge) × Holds work.old lattice es) × (lattice.len ≡ 0 → ⊥) × (i < lattice.count) }
    ensures { SameBehind work.old work.new
        × ((es : List Edge) → Holds work.old lattice es
        → Holds work.new lattice (turn_off_at es i)) }
{
    let at = offset_at(work, lattice, i);
    let map = inactive_map(fields::u16_at(work, at));
    fields::write::put_u16(work, at, map);
}
