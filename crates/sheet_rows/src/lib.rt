// Rows of the proof sheet (02, S-8), whose form those of a worn line have (S-10): a character by its place in the sheet's order, the value of a text, and a row as it is
// written. The words of the contracts are in specs/Rows.antt.
#![tactic(auto)]

ghost use Rattle.std.specs.Prelude.{◌≡◌, [], ◌∷◌, ◌+◌, ◌≤◌, ◌<◌, length};
ghost use Rattle.whole.specs.Decimal.{decimal};
ghost use Rattle.edge.specs.Write.{Put};
ghost use Rattle.grammar.specs.Plain.{utf8};
ghost use Rattle.numeral.specs.Field.{field_of};
ghost use Rattle.numeral.specs.Walk.{valued};
ghost use Rattle.sheet_rows.specs.Rows.{char_at, number_of, row_of};

// Puts the character of a rank: the sixteen have three bytes each.
pub fn put_char(buf: &mut [u8], at: usize, rank: usize) -> usize
    requires { (at + 3 ≤ length buf.old) × (rank < 16) }
    ensures { Put buf.old buf.new at result (utf8 (char_at rank ∷ [])) }
{
    let chars =
        *b"\xe9\x9b\xb6\xe4\xb8\x80\xe4\xba\x8c\xe4\xb8\x89\xe5\x9b\x9b\xe4\xba\x94\xe5\x85\xad\xe4\xb8\x83\xe5\x85\xab\xe4\xb9\x9d\xe5\x8d\x81\xe7\x99\xbe\xe5\x8d\x83\xe4\xb8\x87\xe5\x84\x84\xe5\x85\x86";
    let from = 3 * rank;
    let to = from + 3;
    fields::copy::copy_in(buf, at, &chars[from..to]);
    at + 3
}

// The value of a text, where it is a numeral of value at most TOP.
pub fn value_within(line: &[u8]) -> Option<u64>
    ensures { result ≡ valued (number_of (field_of line.now)) }
{
    numeral::read::one_number(line).unwrap_or(None)
}

// How long the row of a text of so many bytes is.
pub fn row_len(len: usize, value: u64) -> usize
    requires { len ≤ 768 }
    ensures { result ≡ len + length (decimal value) + 2 }
{
    len + whole::decimal::decimal_len(value) + 2
}

// Puts a row.
pub fn put_row(out: &mut [u8], at: usize, text: &[u8], value: u64) -> usize
    requires { at + length text.now + length (decimal value) + 2 ≤ length out.old }
    ensures { Put out.old out.new at result (row_of text.now value) }
{
    fields::copy::copy_in(out, at, text);
    let tab = at + text.len();
    out[tab] = b'\t';
    let end = whole::decimal::put_decimal(out, tab + 1, value);
    out[end] = b'\n';
    end + 1
}
