// The type "digit" of a record, and what the record's rom must be then (01, "Record").
ghost use Rattle.std.specs.Prelude.{◌≡◌, true, ◌+◌, ◌≤◌, length};
ghost use Rattle.fields.specs.Fields.{le_at};
ghost use Rattle.table.specs.Layout.{bit};
ghost use Rattle.table.specs.Check.{is_digit_type};
ghost use Rattle.fields.specs.Part.{part_of};
ghost use Rattle.table.specs.Answers.{Within};
ghost use Rattle.table.specs.Digit.{digit_fine};

use crate::bits;
use fields::Part;

// Whether a part is "digit": its first four bytes are looked at as one number.
pub fn is_digit_type(s: &[u8], p: Part) -> bool
    requires { Within s.now p }
    ensures { result ≡ is_digit_type (part_of s.now p) }
{
    if p.len != 5 {
        return false;
    }
    // Kept as a number and a byte: a loop over the five bytes takes 13 instructions for these 8 (clang -O2, both in C), and each numeric character of a line asks this.
    let at = p.at.0;
    let last = s[at + 4];
    (fields::u32_at(s, at) == 0x69676964) & (last == b't')
}

// Type "digit" with value 0 to 9: rom is that one ASCII digit. The value stands at an offset, if there is one.
pub fn legal_digit(s: &[u8], map: u8, at: usize, kind: Part, rom: Part) -> bool
    requires at_in_bounds { bit map 1 ≡ true → at + 8 ≤ length s.now }
    requires within { Within s.now kind × Within s.now rom }
    ensures { result ≡ digit_fine map (le_at s.now at 8) (part_of s.now kind)
        (part_of s.now rom) }
{
    if map / bits::VALUE % 2 != 1 {
        return true;
    }
    let value = fields::u64_at(s, at);
    if 9 < value {
        return true;
    }
    if !is_digit_type(s, kind) {
        return true;
    }
    if map / bits::ROM % 2 != 1 {
        return false;
    }
    if rom.len != 1 {
        return false;
    }
    s[rom.at.0] as u64 == 48 + value
}
