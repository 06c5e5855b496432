// A character of a text that is known to be well-formed: three comparisons of its lead byte tell its length, and no byte behind it is tested again (`text::sequence::seq_at` tests them all).
ghost use Rattle.std.specs.Prelude.{◌≡◌, drop};
ghost use Rattle.text.specs.Sequence.{seq};
ghost use Rattle.text.specs.Known.{Stands, char_of};

use crate::Offset;
use crate::code_point::{of_four, of_three, of_two, widen};

// A character, by its code point and its length in bytes.
#[derive(Clone, Copy)]
pub struct Known {
    pub code: u32,
    pub len: usize,
}

// The character that stands at an offset.
pub fn char_at(s: &[u8], at: Offset) -> Known
    requires { Stands s.now at.0 }
    ensures { char_of result ≡ seq (drop at.0 s.now) }
{
    let at = at.0;
    let b = s[at];
    let lead = widen(b);
    if b < 0x80 {
        return Known { code: lead, len: 1 };
    }
    if b < 0xE0 {
        return Known {
            code: of_two(s, at, lead % 32),
            len: 2,
        };
    }
    if b < 0xF0 {
        return Known {
            code: of_three(s, at, lead % 16),
            len: 3,
        };
    }
    Known {
        code: of_four(s, at, lead % 8),
        len: 4,
    }
}
