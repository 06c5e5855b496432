// A filter over the code points of a table's records: a character whose bit is not set has none, so that one look tells most of the characters of a text. It stands in the index behind its
// entries. The walk that checks the records sets their bits; a bit that is set for another reason costs a search and no more. docs/DECISIONS.md says how its size was chosen.
ghost use Rattle.std.specs.Prelude.{◌≡◌, length, eqb};
ghost use Rattle.table.specs.Filter.{mark_word, mark_bit, index_size, mark, with_mark};

use crate::index::{INDEX_SIZE, MOST_ENTRIES};

// The word that has the bit of a code point. The code points from U+8000 on begin in the middle, so that Han does not share bits with the digits of scripts below U+2000.
fn word_of(c: u32) -> usize
    ensures { result ≡ mark_word c }
{
    MOST_ENTRIES + ((c / 128 + c / 32768 * 128) % 256) as usize
}

// The bit's number in its word.
fn bit_of(c: u32) -> u32
    ensures { result ≡ mark_bit c }
{
    c / 4 % 32
}

// Sets the bit of a code point.
pub fn mark_char(offs: &mut [u32], c: u32)
    requires { length offs.old ≡ index_size }
    ensures { offs.new ≡ with_mark offs.old c }
{
    let i = word_of(c);
    let k = bit_of(c);
    offs[i] = offs[i] | (1u32 << k);
}

// Whether a character may have a record: whether its bit is set.
pub fn may_have(offs: &[u32; INDEX_SIZE], c: u32) -> bool
    ensures { result ≡ eqb (mark offs.now c) 1 }
{
    let i = word_of(c);
    let k = bit_of(c);
    (offs[i] >> k) % 2 == 1
}
