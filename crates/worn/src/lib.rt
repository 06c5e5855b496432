// One character worn off the stone (02, S-10): which of the sixteen may have stood where a line has □, and the value that the line then has. The words of the contracts
// are in specs/Worn.antt.
#![tactic(auto)]

pub mod mark; // mark.rt: where the one □ stands
pub mod rows; // rows.rt: the rows of the characters that serve

ghost use Rattle.std.specs.Prelude.{◌≡◌, true, ◌≤◌, length};
ghost use Rattle.text.specs.Text.{chars, well_formed};
ghost use Rattle.worn.specs.Worn.{worn_codes, stored, line_rows, worn, output};
ghost use Rattle.worn.specs.declared.WornRefusal.TheVariants as WornRefusal;
ghost use Rattle.worn.specs.Tried.{AnswersRows};

use text::LineRefusal;

// Why a worn line is refused, in this order: 2 and 3, with the offset; 12, a line without just one □ or with another character
// outside the table; 8, an output too short; 13, none of the sixteen serves.
#[derive(Clone, Copy)]
pub enum WornRefusal {
    Line(LineRefusal),
    NotOneMark,
    TooShort,
    NoneServes,
}

impl From<LineRefusal> for WornRefusal {
    ghost from_gives = { λ e r. r ≡ WornRefusal.Line e };

    fn from(e: LineRefusal) -> WornRefusal {
        WornRefusal::Line(e)
    }
}

// The answer for a line with these rows, which come to the front of the output.
fn answer_rows(rows: &[u8], out: &mut [u8]) -> Result<usize, WornRefusal>
    ensures { AnswersRows rows.now out.old result out.new }
{
    if out.len() < rows.len() {
        return Err(WornRefusal::TooShort);
    }
    if rows.len() == 0 {
        return Err(WornRefusal::NoneServes);
    }
    fields::copy::copy_in(out, 0, rows);
    Ok(rows.len())
}

// The answer for a line that is refused neither 2 nor 3.
fn answer_line(line: &[u8], out: &mut [u8]) -> Result<usize, WornRefusal>
    requires { (well_formed line.now ≡ true) × (length (chars line.now) ≤ 256) }
    ensures answer { result ≡ worn_codes (chars line.now) (length out.old) }
    ensures after { out.new ≡ stored (line_rows line.now) out.old result }
{
    let at = crate::mark::find_mark(line).ok_or(WornRefusal::NotOneMark)?;
    let mut rows = [0u8; 336];
    let end = crate::rows::rows_of(line, at, &mut rows);
    answer_rows(&rows[..end], out)
}

// The rows of the characters that serve, at the front of the output.
pub fn worn_character(line: &[u8], out: &mut [u8]) -> Result<usize, WornRefusal>
    ensures answer { result ≡ worn line.now (length out.old) }
    ensures after { out.new ≡ output line.now out.old }
{
    text::check::check_line(line)?;
    answer_line(line, out)
}
