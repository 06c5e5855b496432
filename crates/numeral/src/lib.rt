// The value of a line as a numeral of the plain table, and S-4 of 02: is this field one number? A line is read from the left straight by the grammar, without a
// listing; nothing is copied.
#![tactic(auto)]

pub mod sums; // sums.rt: sums and products that stop counting above TOP
pub mod plain; // plain.rt: the plain table's character at an offset
pub mod state; // state.rt: how the blocks and the small that are read take the next character
pub mod read; // read.rt: numeral, block and small, which call each other; the answer

ghost use Rattle.std.specs.Prelude.{◌≡◌};
ghost use Rattle.numeral.specs.declared.FieldRefusal.TheVariants as FieldRefusal;

use text::LineRefusal;

// What stands at an offset: a digit, 十百千 or 万億兆 by its value; anything else; the end.
#[derive(Clone, Copy)]
pub enum Glyph {
    Digit(u64),
    Ten(u64),
    Large(u64),
    Other,
    End,
}

// The blocks before a member: the sum of their values, and the last one's base; base 0 where there is none.
// Kept with 0 for no base: 01's table of forms names a chain state with sum and last base.
#[derive(Clone, Copy)]
pub struct Blocks {
    pub sum: u64,
    pub base: u64,
}

// A small as far as it is read. Of its last atom: value and base (a run has base 1), whether it is a run of one character, whether it is the small's first.
// Of the atoms before the last: the sum, and the base of the nearest one that isn't a lone 零, 0 where there is none.
// Kept with `first` beside `near`: a small's first atom and one behind lone 零 alone both have no such base, and only the first may stand.
#[derive(Clone, Copy)]
pub struct Atoms {
    pub sum: u64,
    pub near: u64,
    pub first: bool,
    pub value: u64,
    pub base: u64,
    pub lone: bool,
}

// Why a field is refused: a numeral above TOP (7); not UTF-8, or over 256 characters (2, 3), with the offset.
#[derive(Clone, Copy)]
pub enum FieldRefusal {
    AboveTop,
    Line(LineRefusal),
}

impl From<LineRefusal> for FieldRefusal {
    ghost from_gives = { λ e r. r ≡ FieldRefusal.Line e };

    fn from(e: LineRefusal) -> FieldRefusal {
        FieldRefusal::Line(e)
    }
}
