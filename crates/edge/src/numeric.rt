// The fields of a numeric edge in its listing.
ghost use Rattle.std.specs.Prelude.{◌≡◌, true, cond, ◌+◌, ◌/◌, ◌%◌, ◌≤◌, ◌<◌, length, eqb};
ghost use Rattle.fields.specs.Fields.{le_at};
ghost use Rattle.edge.specs.Layout.{fields_end};
ghost use Rattle.edge.specs.View.{part_at, no_part, fields_at};

use crate::{NumFields, bits};
use fields::Part;
use text::Offset;

// What stands for a text that is not there.
const NO_TEXT: Part = Part {
    at: Offset(0),
    len: 0,
};

// The fields of a numeric edge, whose orig_txt stands at an offset. Each stands behind those before it that are there.
pub fn fields_at(map: u16, s: &[u8], at: usize) -> NumFields
    requires { fields_end map s.now at ≤ length s.now }
    ensures { result ≡ fields_at map s.now at }
{
    let orig = crate::text_at(s, at);
    let value = orig.at.0 + orig.len;
    let fraction = value + 8 * (map / bits::VALUE % 2) as usize;
    let base = fraction + 16 * (map / bits::FRACTION % 2) as usize;
    let multiplier = base + 8 * (map / bits::BASE % 2) as usize;
    let script_at = multiplier + 8 * (map / bits::MULT % 2) as usize;
    let script = crate::if_bit(map, bits::SCRIPT, NO_TEXT, || crate::text_at(s, script_at));
    let value_s_at = script_at + 2 * (map / bits::SCRIPT % 2) as usize + script.len;
    let value_s = crate::if_bit(
        map,
        bits::VALUE_S,
        NO_TEXT,
        || crate::text_at(s, value_s_at),
    );
    let decimals_at = value_s_at + 2 * (map / bits::VALUE_S % 2) as usize + value_s.len;
    NumFields {
        map,
        value: crate::if_bit(map, bits::VALUE, 0, || fields::u64_at(s, value)),
        numerator: crate::if_bit(map, bits::FRACTION, 0, || fields::u64_at(s, fraction)),
        denominator: crate::if_bit(map, bits::FRACTION, 0, || fields::u64_at(s, fraction + 8)),
        base: crate::if_bit(map, bits::BASE, 0, || fields::u64_at(s, base)),
        base_multiplier: crate::if_bit(map, bits::MULT, 0, || fields::u64_at(s, multiplier)),
        orig,
        script,
        value_s,
        decimals: crate::if_bit(map, bits::DECIMALS, 0, || s[decimals_at]),
    }
}
