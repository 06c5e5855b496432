// The texts of the edges that fractions and percentages make (01, "Fractions and percentages"), at the front of a buffer.
ghost use Rattle.std.specs.Prelude.{◌≡◌, [], ◌∷◌, ◌++◌, ◌+◌, ◌≤◌, length};
ghost use Rattle.whole.specs.Decimal.{decimal};
ghost use Rattle.fields.specs.Part.{part_of};
ghost use Rattle.fractions.specs.NewTexts.{TextIs};
ghost use Rattle.text.specs.Line.{max_chars};

use fields::Part;

// The room for the text of a new edge.
pub const TEXT_ROOM: usize = 300;

// A number and "%".
pub fn put_percent(buf: &mut [u8; TEXT_ROOM], value: u64) -> usize
    ensures { TextIs buf.new result (decimal value ++ (37 ∷ [])) }
{
    let end = whole::decimal::put_decimal(buf, 0, value);
    buf[end] = b'%';
    end + 1
}

// "right/left".
pub fn put_fraction(buf: &mut [u8; TEXT_ROOM], right: u64, left: u64) -> usize
    ensures { TextIs buf.new result (decimal right ++ (47 ∷ decimal left)) }
{
    let n = whole::decimal::put_decimal(buf, 0, right);
    buf[n] = b'/';
    whole::decimal::put_decimal(buf, n + 1, left)
}

// A text of the lattice and "%".
pub fn put_txt_percent(buf: &mut [u8; TEXT_ROOM], work: &[u8], txt: Part) -> usize
    requires { (txt.at.0 + txt.len ≤ length work.now) × (txt.len ≤ max_chars) }
    ensures { TextIs buf.new result (part_of work.now txt ++ (37 ∷ [])) }
{
    let from = txt.at.0;
    let n = txt.len;
    let to = from + n;
    fields::copy::copy_in(buf, 0, &work[from..to]);
    buf[n] = b'%';
    n + 1
}
