// The cells of the lattice with one edge more: where it stands, and its bucket. `lattice::find` goes by them.
ghost use Rattle.std.specs.Prelude.{◌≡◌, ◌+◌, ◌*◌, ◌≤◌, ◌<◌, length};
ghost use Rattle.std.proofs.lemmas.List.Edits.{sets};
ghost use Rattle.fields.specs.Fields.{bytes_of, u16_limit};
ghost use Rattle.lattice.specs.Kept.{linked, END, BUCKETS};
ghost use Rattle.lattice.specs.Lattice.{most_edges, most_bytes};

use crate::{HEADS, NEXTS, OFFSETS};

// The i-th cell from base on gets a value.
fn put_cell(work: &mut [u8], base: usize, i: usize, value: usize)
    requires { (base + 2 * i + 2 ≤ length work.old) × (value < u16_limit) }
    ensures { work.new ≡ sets work.old (base + 2 * i) (bytes_of 2 value) }
{
    fields::write::put_u16(work, base + 2 * i, value as u16);
}

// The cells and the count with one edge more, behind so many, at offset len.
pub fn link(work: &mut [u8], count: usize, len: usize, bucket: usize)
    requires { (END ≤ length work.old) × (count < most_edges) × (len ≤ most_bytes) × (bucket < BUCKETS) }
    ensures { work.new ≡ linked work.old count len bucket }
{
    let head = fields::u16_at(work, HEADS + 2 * bucket) as usize;
    put_cell(work, OFFSETS, count, len);
    put_cell(work, NEXTS, count, head);
    put_cell(work, HEADS, bucket, count + 1);
    fields::write::put_u16(work, 0, (count + 1) as u16);
}
