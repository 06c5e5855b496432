// Where the next edge of a listing begins. Whatever stands there is read, and bytes past the end count as 0.
ghost use Rattle.std.specs.Prelude.{◌≡◌, cond, ◌+◌, ◌/◌, ◌%◌, ◌≤◌, ◌<◌, length, eqb};
ghost use Rattle.fields.specs.Fields.{le_at};
ghost use Rattle.edge.specs.Layout.{string_end, fields_end, next_at};

use crate::bits;

// The u16 at an offset; bytes past the end count as 0.
fn u16_or_zero(s: &[u8], at: usize) -> u16
    ensures { result ≡ le_at s.now at 2 }
{
    if s.len() <= at {
        return 0;
    }
    if s.len() - at < 2 {
        return s[at] as u16;
    }
    fields::u16_at(s, at)
}

// Behind the string at an offset.
fn string_end(s: &[u8], at: usize) -> usize
    requires { at ≤ length s.now + 1000000 }
    ensures { (result ≡ string_end s.now at) × (result ≤ at + 65537) }
{
    at + 2 + u16_or_zero(s, at) as usize
}

// Behind the fields of a numeric edge.
fn fields_end(map: u16, s: &[u8], at: usize) -> usize
    requires { at ≤ length s.now + 200000 }
    ensures { result ≡ fields_end map s.now at }
{
    let script = crate::script_at(map, string_end(s, at));
    let value_s = crate::if_bit(map, bits::SCRIPT, script, || string_end(s, script));
    let decimals = crate::if_bit(map, bits::VALUE_S, value_s, || string_end(s, value_s));
    decimals + (map / bits::DECIMALS % 2) as usize
}

// Behind the edge at an offset: past the end where it is cut off.
pub fn next_at(s: &[u8], at: usize) -> usize
    requires { at ≤ length s.now }
    ensures { result ≡ next_at s.now at }
{
    let map = u16_or_zero(s, at);
    let fields = string_end(s, string_end(s, at + 6));
    if crate::bit(map, bits::NUMERIC) {
        fields_end(map, s, fields)
    } else {
        fields
    }
}
