// The plain table's character at an offset. All sixteen have three bytes, which are compared as one number.
ghost use Rattle.std.specs.Prelude.{◌≡◌, ◌+◌, ◌≤◌, ◌<◌, length, drop};
ghost use Rattle.numeral.specs.Walk.{ThreeAt, glyph_of, glyph_at};

use crate::Glyph;

pub const SIZE: usize = 3;

// The character with these bytes.
fn glyph_of(bytes: u32) -> Glyph
    ensures { result ≡ glyph_of bytes }
{
    match bytes {
        0xE99BB6 => Glyph::Digit(0),
        0xE4B880 => Glyph::Digit(1),
        0xE4BA8C => Glyph::Digit(2),
        0xE4B889 => Glyph::Digit(3),
        0xE59B9B => Glyph::Digit(4),
        0xE4BA94 => Glyph::Digit(5),
        0xE585AD => Glyph::Digit(6),
        0xE4B883 => Glyph::Digit(7),
        0xE585AB => Glyph::Digit(8),
        0xE4B99D => Glyph::Digit(9),
        0xE58D81 => Glyph::Ten(10),
        0xE799BE => Glyph::Ten(100),
        0xE58D83 => Glyph::Ten(1000),
        0xE4B887 => Glyph::Large(10000),
        0xE58484 => Glyph::Large(100000000),
        0xE58586 => Glyph::Large(1000000000000),
        _ => Glyph::Other,
    }
}

// Three bytes as one number.
fn three(line: &[u8], at: usize) -> u32
    requires { at + 3 ≤ length line.now }
    ensures { ThreeAt line.now at result }
{
    // Kept as a sum: u32::from_be_bytes takes four bytes, and a character has three.
    u32::from(line[at]) * 65536 + u32::from(line[at + 1]) * 256 + u32::from(line[at + 2])
}

// What stands at an offset.
pub fn glyph_at(line: &[u8], at: usize) -> Glyph
    ensures { result ≡ glyph_at (drop at line.now) }
{
    if line.len() <= at {
        return Glyph::End;
    }
    if line.len() - at < SIZE {
        return Glyph::Other;
    }
    glyph_of(three(line, at))
}
