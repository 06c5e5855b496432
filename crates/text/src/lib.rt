// Text as bytes and as characters: UTF-8 by Unicode table 3-7, places and offsets, a line. Here are the types of the modules' answers, and equality of bytes.
#![tactic(auto)]

pub mod lead_byte; // lead_byte.rt: the row of table 3-7 for a lead byte
pub mod code_point; // code_point.rt: the code point of a sequence by its bytes
pub mod sequence; // sequence.rt: one sequence in any bytes
pub mod known; // known.rt: a character of a text that is known to be well-formed
pub mod line; // line.rt: a text as characters, the offset of a place
pub mod check; // check.rt: refusals 2 and 3 of a line

ghost use Rattle.std.specs.Prelude.{◌≡◌};
ghost use Rattle.text.specs.Bytes.{same};

// A count of characters of the line.
#[derive(Clone, Copy)]
pub struct Place(pub usize);

// A count of bytes.
#[derive(Clone, Copy)]
pub struct Offset(pub usize);

// A row of table 3-7: the sequence's length, and the limits of its second byte.
#[derive(Clone, Copy)]
pub struct Row(pub usize, pub u8, pub u8);

// What stands at an offset: a character, by its code point and its length in bytes; an ill-formed sequence; the end.
// An enum of its own: it tells three kinds apart, and an Option or a Result tells two.
#[derive(Clone, Copy)]
pub enum Seq {
    Char(u32, usize),
    Ill,
    End,
}

// How far a walk over characters came: how many, and the offset behind them.
#[derive(Clone, Copy)]
pub struct Walked {
    pub count: usize,
    pub at: Offset,
}

// Why a line is refused: not UTF-8, with the offset of its first ill-formed sequence; over MAX_CHARS characters, with the offset of the next one.
#[derive(Clone, Copy)]
pub enum LineRefusal {
    IllFormed(Offset),
    TooLong(Offset),
}

// Whether two byte strings are equal.
pub fn same_bytes(a: &[u8], b: &[u8]) -> bool
    ensures { result ≡ same a.now b.now }
{
    a == b
}
