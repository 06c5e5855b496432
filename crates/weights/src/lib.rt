// What each digit of a numeral weighs: how far one wrong digit goes (02, S-9). The line is read from the right: a digit weighs ten times the next one of its run,
// and what stands behind the run says what its last digit weighs.
#![tactic(auto)]

pub mod units; // units.rt: what a digit weighs by what stands behind it

ghost use Rattle.std.specs.Prelude.{◌≡◌, cond, List, ℕ, ◌+◌, ◌*◌, ◌≤◌, length, Some, Ok};
ghost use Rattle.std.proofs.lemmas.List.Edits.{sets};
ghost use Rattle.fields.specs.Fields.{bytes_of};
ghost use Rattle.fields.specs.Flag.{flag};
ghost use Rattle.grammar.specs.Plain.{Char, utf8};
ghost use Rattle.numeral.specs.Field.{field_of};
ghost use Rattle.numeral.specs.Walk.{capped};
ghost use Rattle.weights.specs.Weights.{nines};
ghost use Rattle.weights.specs.Walk.{is_weighed, found, start, last_unit};
ghost use Rattle.weights.specs.Weighed.{weights_bytes, weigh, output};
ghost use Rattle.weights.specs.declared.WeighRefusal.TheVariants as WeighRefusal;

use crate::units::{Units, last_unit, weighed};
use fields::write::put_u64;
use numeral::plain::{SIZE, glyph_at};
use numeral::{FieldRefusal, Glyph};

// What weighing the digits of a line answers: so many weights are written; refusal 7, a numeral above TOP; refusal 8, an output too short; refusals 2 and 3 of the
// line, with the offset.
#[derive(Clone, Copy)]
pub enum WeighRefusal {
    Field(FieldRefusal),
    TooShort,
}

impl From<FieldRefusal> for WeighRefusal {
    ghost from_gives = { λ e r. r ≡ WeighRefusal.Field e };

    fn from(e: FieldRefusal) -> WeighRefusal {
        WeighRefusal::Field(e)
    }
}

// How many 一 to 九 a line of table characters has.
fn count_digits(line: &[u8]) -> usize
    ensures { (w : List Char) → line.now ≡ utf8 w → result ≡ length (nines w) }
{
    let mut n = 0;
    for place in 0..line.len() / SIZE {
        n += usize::from(weighed(glyph_at(line, SIZE * place)));
    }
    n
}

// Writes a weight where one of 一 to 九 stands.
fn put_weight(out: &mut [u8], at: usize, glyph: Glyph, weight: u64)
    requires { at + 8 * flag (is_weighed glyph) ≤ length out.old }
    ensures { out.new
        ≡ cond (is_weighed glyph) (sets out.old at (bytes_of 8 weight)) out.old }
{
    if weighed(glyph) {
        put_u64(out, at, weight);
    }
}

// Writes the weights of a line of table characters with so many 一 to 九, from the last one to the first.
fn put_weights(line: &[u8], out: &mut [u8], count: usize)
    requires { (w : List Char) × (line.now ≡ utf8 w)
        × (count ≡ length (nines w)) × (8 * count ≤ length out.old) }
    ensures { (w : List Char) → line.now ≡ utf8 w
        → out.new ≡ sets out.old 0 (weights_bytes (found capped w (start (last_unit w)))) }
{
    let mut units = Units {
        digit: last_unit(line),
        member: 1,
    };
    let mut k = count;
    for place in (0..line.len() / SIZE).rev() {
        let glyph = glyph_at(line, SIZE * place);
        k -= usize::from(weighed(glyph));
        put_weight(out, 8 * k, glyph, units.digit);
        units = units.before(glyph);
    }
}

// The answer for a numeral that is not above TOP.
fn weigh_numeral(line: &[u8], out: &mut [u8]) -> Result<usize, WeighRefusal>
    requires { (v : ℕ) × (field_of line.now ≡ Ok (Some v)) }
    ensures answer { result ≡ weigh line.now (length out.old) }
    ensures after { out.new ≡ output line.now out.old }
{
    let count = count_digits(line);
    if out.len() / 8 < count {
        return Err(WeighRefusal::TooShort);
    }
    put_weights(line, out, count);
    Ok(count)
}

// Writes the weights of a line's 一 to 九 at the front of the output, eight bytes each.
#[tactic(auto, unfolding(crate::specs::Weighed::weigh))]
pub fn weigh_digits(line: &[u8], out: &mut [u8]) -> Result<usize, WeighRefusal>
    ensures answer { result ≡ weigh line.now (length out.old) }
    ensures after { out.new ≡ output line.now out.old }
{
    let field = numeral::read::one_number(line)?;
    match field {
        Some(_) => weigh_numeral(line, out),
        None => Ok(0),
    }
}
