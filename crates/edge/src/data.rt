// The fields that the numeric data of an edge is listed with (01, "Listing"): a float goes as its bits.
ghost use Rattle.std.specs.Prelude.{◌≡◌, not, T};
ghost use Rattle.std.specs.Float.Ieee.{is_nan};
ghost use Rattle.edge.specs.Write.{fields_of};

use crate::{NumData, NumFields};

// The fields of numeric data.
// Kept as a function, and not as From: it requires that the floats are no NaN, and `From::from` requires nothing.
pub fn num_fields(d: NumData) -> NumFields
    requires { T (not (is_nan d.value)) × T (not (is_nan d.base_multiplier)) }
    ensures { result ≡ fields_of d }
{
    let orig = d.orig;
    let script = d.script;
    let value_s = d.value_s;
    NumFields {
        map: d.map,
        value: f64::to_bits(d.value),
        numerator: d.numerator,
        denominator: d.denominator,
        base: d.base,
        base_multiplier: f64::to_bits(d.base_multiplier),
        orig,
        script,
        value_s,
        decimals: d.decimals,
    }
}
