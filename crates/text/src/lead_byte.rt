// Unicode Standard, table 3-7: the row for a lead byte, that is, how long its sequence is and what its second byte may be. Module `text::sequence` reads a sequence by it.
ghost use Rattle.std.specs.Prelude.{◌≡◌};
ghost use Rattle.text.specs.Table.{row_of};

use crate::Row;

// The row for a lead byte; of length 0 where no sequence begins with it.
// Kept as a length and not an Option: `seq_at` matches on the lengths 1 to 4, and 0 goes to its last arm with no arm more.
pub fn row_of(b: u8) -> Row
    ensures { result ≡ row_of b }
{
    match b {
        0x00..=0x7F => Row(1, 0, 0),
        0xC2..=0xDF => Row(2, 0x80, 0xBF),
        0xE0 => Row(3, 0xA0, 0xBF),
        0xE1..=0xEC => Row(3, 0x80, 0xBF),
        0xED => Row(3, 0x80, 0x9F),
        0xEE..=0xEF => Row(3, 0x80, 0xBF),
        0xF0 => Row(4, 0x90, 0xBF),
        0xF1..=0xF3 => Row(4, 0x80, 0xBF),
        0xF4 => Row(4, 0x80, 0x8F),
        _ => Row(0, 0, 0),
    }
}
