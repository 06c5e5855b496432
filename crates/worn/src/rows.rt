// The rows of the characters that serve. The line is copied, and each of the sixteen is put over its □ in turn. A row has at most 21 bytes: three of the character, a
// tab, sixteen digits and a newline.
ghost use Rattle.std.specs.Prelude.{◌≡◌, List, [], ◌∷◌, ◌+◌, ◌≤◌, ◌<◌, length, take};
ghost use Rattle.text.specs.Text.{chars};
ghost use Rattle.edge.specs.Write.{Put};
ghost use Rattle.grammar.specs.Plain.{Char, utf8};
ghost use Rattle.numeral.specs.Field.{field_of};
ghost use Rattle.numeral.specs.Walk.{valued};
ghost use Rattle.sheet_rows.specs.Rows.{char_at, number_of};
ghost use Rattle.worn.specs.Worn.{worn_rows, worn_bytes};
ghost use Rattle.worn.specs.Marked.{WornAt};
ghost use Rattle.worn.specs.Tried.{Stands};

use sheet_rows::{put_char, put_row, value_within};

// The value of a copy's first len bytes with the character of a rank put at an offset.
fn try_char(copy: &mut [u8], len: usize, at: usize, rank: usize) -> Option<u64>
    requires { (at + 3 ≤ len) × (len ≤ length copy.old) × (rank < 16) }
    ensures answer { result ≡ valued (number_of (field_of (take len copy.new))) }
    ensures put { Put copy.old copy.new at (at + 3) (utf8 (char_at rank ∷ [])) }
{
    put_char(copy, at, rank);
    value_within(&copy[..len])
}

// Puts the rows, in the sheet's order.
fn put_rows(rows: &mut [u8], copy: &mut [u8], len: usize, at: usize) -> usize
    requires { (336 ≤ length rows.old) × ((x : List Char) × (y : List Char) × Stands copy.old len at x y) }
    ensures short { result ≤ 336 }
    ensures put { (x y : List Char) → Stands copy.old len at x y
        → Put rows.old rows.new 0 result (worn_bytes (worn_rows x y)) }
{
    let to = at + 3;
    let mut end = 0;
    for rank in 0..16 {
        let Some(value) = try_char(copy, len, at, rank) else {
            continue;
        };
        end = put_row(rows, end, &copy[at..to], value);
    }
    end
}

// The rows of a line whose one □ stands at an offset, at the front of the buffer.
pub fn rows_of(line: &[u8], at: usize, rows: &mut [u8]) -> usize
    requires { (336 ≤ length rows.old) × WornAt line.now at × (length (chars line.now) ≤ 256) }
    ensures short { result ≤ 336 }
    ensures put { (w : WornAt line.now at)
        → Put rows.old rows.new 0 result (worn_bytes (worn_rows w.x w.y)) }
{
    let mut copy = [0u8; 768];
    fields::copy::copy_in(&mut copy, 0, line);
    put_rows(rows, &mut copy, line.len(), at)
}
