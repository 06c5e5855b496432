// The fraction of a record (01, "From characters to edges"), as a stored edge of the pass list has it.
ghost use Rattle.std.specs.Prelude.{◌≡◌, ◌/◌, ◌%◌, ◌<◌};
ghost use Rattle.pass_edge.specs.Fields.{record_fraction, FractionIs};

use passes::ratio::{Ratio, lowest};
use table::bits;
use table::layout::NumProp;

// The fraction of a record, in lowest terms.
pub fn fraction_of(prop: NumProp) -> Option<Ratio>
    requires { prop.map / 4 % 2 ≡ 1 → 0 < prop.numbers.denominator }
    ensures { FractionIs result (record_fraction prop) }
{
    if prop.map / bits::FRACTION % 2 == 1 {
        return Some(lowest(prop.numbers.numerator, prop.numbers.denominator));
    }
    None
}
