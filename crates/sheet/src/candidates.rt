// The words of one to four characters by number, in the sheet's order (`sheet_counts`, specs/Numbered.antt), and whether one has a row.
ghost use Rattle.std.specs.Prelude.{◌≡◌, ◌*◌, ◌≤◌, ◌<◌, length};
ghost use Rattle.edge.specs.Write.{Put};
ghost use Rattle.grammar.specs.Plain.{utf8};
ghost use Rattle.sheet_counts.specs.Numbered.{word_of, candidate};
ghost use Rattle.sheet.specs.Walk.{AtFront, tried};

// How many there are: 16 + 16² + 16³ + 16⁴.
pub const COUNT: usize = 69904;

// Puts the word of a number, of so many characters at most, at the front of the buffer.
fn put_word(buf: &mut [u8], most: usize, number: usize) -> usize
    requires { 3 * most ≤ length buf.old }
    ensures { Put buf.old buf.new 0 result (utf8 (word_of most number)) }
{
    if most == 0 {
        return 0;
    }
    if number == 0 {
        return 0;
    }
    let at = put_word(buf, most - 1, (number - 1) / 16);
    sheet_rows::put_char(buf, at, (number - 1) % 16)
}

// Whether a candidate has a row; its text is then at the front of the buffer.
pub fn try_candidate(buf: &mut [u8], index: usize) -> Option<(usize, u64)>
    requires { (12 ≤ length buf.old) × (index < 69904) }
    ensures answer { result ≡ tried (candidate index) }
    ensures put { AtFront buf.old buf.new (utf8 (candidate index)) }
{
    let len = put_word(buf, 4, index + 1);
    sheet_rows::value_within(&buf[..len]).map(|value| (len, value))
}
