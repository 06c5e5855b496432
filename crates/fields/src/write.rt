// Little-endian numbers written into slices of bytes (01: "Multi-byte numbers are little-endian"): a writer leaves `sets` of the bytes `bytes_of` (`fields`' specs/Fields.antt). And the bits of a map.
ghost use Rattle.std.specs.Prelude.{◌≡◌, ◌+◌, ◌*◌, ◌≤◌, length};
ghost use Rattle.std.proofs.lemmas.List.Edits.{sets};
ghost use Rattle.fields.specs.Fields.{bytes_of};
ghost use Rattle.fields.specs.Flag.{flag};

// Kept as three: each is two of the next narrower; one for all widths would need a trait with a law for each.
pub fn put_u16(out: &mut [u8], at: usize, v: u16)
    requires { at + 2 ≤ length out.old }
    ensures { out.new ≡ sets out.old at (bytes_of 2 v) }
{
    out[at] = (v % 256) as u8;
    out[at + 1] = (v / 256 % 256) as u8;
}

fn put_u32(out: &mut [u8], at: usize, v: u32)
    requires { at + 4 ≤ length out.old }
    ensures { out.new ≡ sets out.old at (bytes_of 4 v) }
{
    put_u16(out, at, (v % 65536) as u16);
    put_u16(out, at + 2, (v / 65536) as u16);
}

pub fn put_u64(out: &mut [u8], at: usize, v: u64)
    requires { at + 8 ≤ length out.old }
    ensures { out.new ≡ sets out.old at (bytes_of 8 v) }
{
    put_u32(out, at, (v % 4294967296) as u32);
    put_u32(out, at + 4, (v / 4294967296) as u32);
}

// What a field or a mark adds to a map, where it is there.
pub fn bit_if(there: bool, bit: u16) -> u16
    ensures { (result ≡ bit * flag there) × (result ≤ bit) }
{
    if there { bit } else { 0 }
}
