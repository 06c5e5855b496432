// Numeral, block and small, which call each other in a cycle as the text goes on (02, S-4); what is left of the line falls. The words of the contracts are those of
// specs/Numeral.antt, specs/Field.antt and specs/Walk.antt.
ghost use Rattle.std.specs.Prelude.{◌≡◌, drop};
ghost use Rattle.text.specs.Line.{line_check};
ghost use Rattle.numeral.specs.Numeral.{in_numeral, to_small, to_block};
ghost use Rattle.numeral.specs.Field.{checked, field_of};
ghost use Rattle.numeral.specs.Walk.{capped, value_from};

use crate::plain::{SIZE, glyph_at};
use crate::state::{answer, first_atom};
use crate::sums::times;
use crate::{Atoms, Blocks, FieldRefusal, Glyph};
use text::check::MAX_CHARS;

// The value of the line, read on from an offset where a member begins, behind these blocks.
#[cycle(block_numeral_small)]
fn numeral(line: &[u8], at: usize, blocks: Blocks) -> Option<u64>
    ensures { result ≡ value_from (in_numeral blocks) (drop at line.now) }
{
    let glyph = glyph_at(line, at);
    match glyph {
        Glyph::Digit(d) => small(line, at + SIZE, blocks, first_atom(d, 1, true)),
        Glyph::Ten(n) => small(line, at + SIZE, blocks, first_atom(n, n, false)),
        Glyph::Large(n) => block(line, at + SIZE, blocks, n, n),
        Glyph::Other => None,
        Glyph::End => blocks.ended(),
    }
}

// The same in a small, behind these atoms of it.
#[cycle(block_numeral_small)]
fn small(line: &[u8], at: usize, blocks: Blocks, atoms: Atoms) -> Option<u64>
    ensures { result ≡ value_from (to_small blocks atoms) (drop at line.now) }
{
    if !atoms.stands() {
        return None; // also where it is above TOP
    }
    let glyph = glyph_at(line, at);
    match glyph {
        Glyph::Digit(d) => small(line, at + SIZE, blocks, atoms.with_digit(d)),
        Glyph::Ten(n) => small(line, at + SIZE, blocks, atoms.with_ten(n)),
        Glyph::Large(n) => block(line, at + SIZE, blocks, times(atoms.total(), n), n),
        Glyph::Other => None,
        Glyph::End => blocks.ended_small(atoms),
    }
}

// The same behind one block more, of this value and base.
#[cycle(block_numeral_small)]
fn block(line: &[u8], at: usize, blocks: Blocks, value: u64, base: u64) -> Option<u64>
    ensures { result ≡ value_from (to_block capped blocks value base) (drop at line.now) }
{
    if !blocks.fits(value, base) {
        return None;
    }
    numeral(line, at, blocks.with_block(value, base))
}

// The answer for a line that is no numeral of up to 256 characters.
fn no_number(line: &[u8]) -> Result<Option<u64>, FieldRefusal>
    ensures { result ≡ checked (line_check line.now) (Ok None) }
{
    text::check::check_line(line)?;
    Ok(None)
}

// Is this line one number? A numeral of up to 768 bytes is well-formed and has up to 256 characters, so that refusals 2 and 3 are asked only where it is none.
pub fn one_number(line: &[u8]) -> Result<Option<u64>, FieldRefusal>
    ensures { result ≡ field_of line.now }
{
    if line.len() > MAX_CHARS * SIZE {
        return no_number(line);
    }
    let value = numeral(line, 0, Blocks { sum: 0, base: 0 });
    match value {
        Some(v) => answer(v),
        None => no_number(line),
    }
}
