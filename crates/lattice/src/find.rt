// Whether a lattice has an edge equal to one that stands in a listing, or room for it. Edges are looked for along their bucket; they count from 1 there.
// A lattice that would be over 1,024 edges or 32,768 bytes is full: it adds nothing more, and is refused at the end.
ghost use Rattle.std.specs.Prelude.{◌≡◌, List, ◌+◌, ◌≤◌, ◌<◌, length};
ghost use Rattle.fields.specs.Part.{part};
ghost use Rattle.text.specs.Bytes.{same};
ghost use Rattle.edge.specs.Edge.{Edge};
ghost use Rattle.lattice.specs.Lattice.{has};
ghost use Rattle.lattice.specs.Kept.{mixed, hash, Stands, Holds, Search, AddingIs};

use crate::{Adding, HEADS, Lattice, MOST_BYTES, MOST_EDGES, NEXTS, OFFSETS};

// A hash, with four bytes more.
fn mix(h: u64, v: u32) -> u64
    requires { h < 4294967296 }
    ensures { result ≡ mixed h v }
{
    (h + v as u64) * 1640531527 % 4294967296
}

// The bucket of a key, by its length, its first four bytes and its last four.
fn bucket_of(source: &[u8], at: usize, size: usize) -> usize
    requires { (at + size ≤ length source.now) × (4 ≤ size) }
    ensures { result ≡ hash (part source.now at size) }
{
    let spans = mix(size as u64 % 4294967296, fields::u32_at(source, at));
    (mix(spans, fields::u32_at(source, at + (size - 4))) / 16777216) as usize
}

// Whether so many bytes of the work space are those of the source.
fn same_parts(work: &[u8], a: usize, source: &[u8], b: usize, size: usize) -> bool
    requires { (a ≤ length work.now) × (b + size ≤ length source.now) }
    ensures { result ≡ same (part work.now a size) (part source.now b size) }
{
    if work.len() - a < size {
        return false;
    }
    let a_end = a + size;
    let b_end = b + size;
    text::same_bytes(&work[a..a_end], &source[b..b_end])
}

// Whether an edge of the lattice has this key: those of its bucket are looked at.
fn has_key(work: &[u8], source: &[u8], at: usize, size: usize, bucket: usize) -> bool
    requires { Search work.now source.now at size bucket }
    ensures { (q : Search work.now source.now at size bucket)
        → result ≡ has q.es q.e }
{
    // Kept as a loop: each turn goes to the edge that the one before it names, and how many there are is stored nowhere.
    let mut edge = fields::u16_at(work, HEADS + 2 * bucket) as usize;
    while 0 < edge {
        let i = edge - 1;
        let off = fields::u16_at(work, OFFSETS + 2 * i) as usize;
        if same_parts(work, off + 2, source, at, size) {
            return true;
        }
        edge = fields::u16_at(work, NEXTS + 2 * i) as usize;
    }
    false
}

// What is to be done with the edge of the source that stands from at to the offset to and has a key of so many bytes. It is looked for before the room is
// tested: one that is there already is no overflow.
pub fn plan_add(
    work: &[u8],
    lattice: Lattice,
    source: &[u8],
    at: usize,
    size: usize,
    to: usize,
) -> Adding
    requires { ((es : List Edge) × Holds work.now lattice es) × ((e : Edge) × Stands source.now at size to e) }
    ensures { (es : List Edge) (e : Edge) → Holds work.now lattice es
        → Stands source.now at size to e → AddingIs lattice es e result }
{
    if lattice.len == 0 {
        return Adding::Nothing;
    }
    let key = at + 2;
    let bucket = bucket_of(source, key, size);
    if has_key(work, source, key, size, bucket) {
        return Adding::Nothing;
    }
    if MOST_EDGES <= lattice.count {
        return Adding::TooMuch;
    }
    if MOST_BYTES - lattice.len < to - at {
        return Adding::TooMuch;
    }
    Adding::Into(bucket)
}
