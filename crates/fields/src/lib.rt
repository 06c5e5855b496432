// Little-endian numbers and copies of bytes in slices (01: "Multi-byte numbers are little-endian"): what stands at an offset is `le_at` of specs/Fields.antt;
// and a part of a slice, whose bytes are `part_of` of specs/Part.antt.
#![tactic(auto)]

pub mod write; // write.rt: numbers written
pub mod copy; // copy.rt: bytes copied in

ghost use Rattle.std.specs.Prelude.{◌≡◌, ◌+◌, ◌≤◌, length};
ghost use Rattle.fields.specs.Fields.{le_at};

use text::Offset;

// A part of a slice (01: "a part of the listing .. a part of the line"): where it begins, and how many bytes it has.
#[derive(Clone, Copy)]
pub struct Part {
    pub at: Offset,
    pub len: usize,
}

// Kept as three: each is two of the next narrower, and std's `from_le_bytes` takes an array, which here is each byte written out.
pub fn u16_at(s: &[u8], at: usize) -> u16
    requires { at + 2 ≤ length s.now }
    ensures { result ≡ le_at s.now at 2 }
{
    let lo = s[at] as u16;
    let hi = s[at + 1] as u16;
    lo + 256 * hi
}

pub fn u32_at(s: &[u8], at: usize) -> u32
    requires { at + 4 ≤ length s.now }
    ensures { result ≡ le_at s.now at 4 }
{
    let lo = u16_at(s, at) as u32;
    let hi = u16_at(s, at + 2) as u32;
    lo + 65536 * hi
}

pub fn u64_at(s: &[u8], at: usize) -> u64
    requires { at + 8 ≤ length s.now }
    ensures { result ≡ le_at s.now at 8 }
{
    let lo = u32_at(s, at) as u64;
    let hi = u32_at(s, at + 4) as u64;
    lo + 4294967296 * hi
}
