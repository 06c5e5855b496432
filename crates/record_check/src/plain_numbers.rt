// What the code point and the numbers of a record may be (01, cause 5), told by few tests, for the short look of `record_check::plain`.
ghost use Rattle.std.specs.Prelude.{◌≡◌, true, ◌&&◌, ◌+◌, ◌%◌, ◌≤◌, length, get_or, leb, ltb, eqb};
ghost use Rattle.fields.specs.Fields.{le_at};
ghost use Rattle.record_check.specs.PlainContent.{Head, Digit, Numbers};

use whole::TOP;

// The map says which fields there are, and the code point is not below the least.
fn map_fits(map: u8, least: u64, code: u32) -> bool
    ensures { result ≡ ((eqb (map % 64) 43 && ltb map 128) && leb least code) }
{
    (map % 64 == 43) & (map < 128) & (least <= code as u64)
}

// The map is told, and the code point is legal. Most are below the surrogates, so those are asked for apart.
// Kept beside `code_point::legal_code_point`: with that function a record of the plain table takes 124 instructions to check, so 121 (callgrind).
pub fn legal_head(s: &[u8], at: usize, least: u64) -> bool
    requires { at + 5 ≤ length s.now }
    ensures { result ≡ true → Head least (le_at s.now at 4) (get_or s.now (at + 4) 0) }
{
    let map = s[at + 4];
    let code = fields::u32_at(s, at);
    if 0xD7FF < code {
        return (0xE000 <= code) & (code <= 0x10FFFF) & map_fits(map, least, code);
    }
    map_fits(map, least, code)
}

// A value of 0 to 9 has that one digit as its rom: a length of 1, and the digit. This is asked where the type's first byte is that of "digit".
fn legal_digit(s: &[u8], first: u8, rom: usize, value: u64) -> bool
    requires { rom + 2 ≤ length s.now }
    ensures { result ≡ true → Digit first (le_at s.now rom 2) value }
{
    if 9 < value {
        return true;
    }
    if first != b'd' {
        return true;
    }
    fields::u16_at(s, rom) as u64 == 0x3001 + 256 * value
}

pub fn legal_numbers(s: &[u8], first: u8, rom: usize, at: usize) -> bool
    requires { (rom + 2 ≤ length s.now) × (at + 16 ≤ length s.now) }
    ensures { result ≡ true
        → Numbers first (le_at s.now rom 2) (le_at s.now at 8)
        (le_at s.now (at + 8) 8) }
{
    let value = fields::u64_at(s, at);
    let base = fields::u64_at(s, at + 8);
    if (TOP < value) | (base == 0) | (TOP < base) {
        return false;
    }
    legal_digit(s, first, rom, value)
}
