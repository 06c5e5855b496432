// The numbers of a record: their layout (01, cause 4) and what they may be (cause 5), in one walk.
ghost use Rattle.std.specs.Prelude.{◌≡◌};
ghost use Rattle.table.specs.Layout.{map_field, read_numbers};
ghost use Rattle.table.specs.Check.{legal_numbers};
ghost use Rattle.record_check.specs.Look.{look_field};

use crate::number::{number_look, ratio_look};
use table::bits;

// The numbers of a record, by its map.
pub fn numbers_look(s: &[u8], map: u8, at: usize) -> Option<(bool, usize)>
    ensures { look_field result ≡ map_field legal_numbers (read_numbers map s.now at) }
{
    let (value, ratio_at) = number_look(s, at, map / bits::VALUE % 2 == 1, 0)?;
    let (ratio, base_at) = ratio_look(s, ratio_at, map / bits::FRACTION % 2 == 1)?;
    let (base, mult_at) = number_look(s, base_at, map / bits::BASE % 2 == 1, 1)?;
    let (mult, next) = number_look(s, mult_at, map / bits::MULT % 2 == 1, 0)?;
    Some((value & ratio & base & mult, next))
}
