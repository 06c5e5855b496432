// What a digit weighs by what stands behind it, on the way over the line from the right. The words of the contracts are those of specs/Walk.antt, with `capped` for
// their products: zeros in front, which have no weight, may be many.
ghost use Rattle.std.specs.Prelude.{◌≡◌, List};
ghost use Rattle.grammar.specs.Plain.{Char, utf8};
ghost use Rattle.numeral.specs.Walk.{capped};
ghost use Rattle.weights.specs.Walk.{is_weighed, before, unit_of_two, last_unit};

use numeral::Glyph;
use numeral::plain::{SIZE, glyph_at};
use numeral::sums::times;

// What a digit weighs that stands directly before a place, and what the last place of that place's member weighs.
#[derive(Clone, Copy)]
pub struct Units {
    pub digit: u64,
    pub member: u64,
}

// Whether it is one of 一 to 九.
pub fn weighed(glyph: Glyph) -> bool
    ensures { result ≡ is_weighed glyph }
{
    match glyph {
        Glyph::Digit(d) => d >= 1,
        _ => false,
    }
}

impl Units {
    // The same one character on.
    pub fn before(self, glyph: Glyph) -> Units
        ensures { result ≡ before capped self glyph }
    {
        match glyph {
            Glyph::Digit(_) => Units {
                digit: times(10, self.digit),
                member: self.member,
            },
            Glyph::Ten(n) => Units {
                digit: times(n, self.member),
                member: self.member,
            },
            Glyph::Large(n) => Units {
                digit: n,
                member: n,
            },
            Glyph::Other | Glyph::End => self,
        }
    }
}

// What the last of a line's characters weighs, by that one and the one before it: "The lone digit after a block has weight base/10."
fn unit_of_two(first: Glyph, last: Glyph) -> u64
    ensures { result ≡ unit_of_two first last }
{
    if !weighed(last) {
        return 1;
    }
    match first {
        Glyph::Large(base) => base / 10,
        _ => 1,
    }
}

// What the last place of a line of table characters weighs.
pub fn last_unit(line: &[u8]) -> u64
    ensures { (w : List Char) → line.now ≡ utf8 w → result ≡ last_unit w }
{
    if line.len() < 2 * SIZE {
        return 1;
    }
    let first = glyph_at(line, line.len() - 2 * SIZE);
    let last = glyph_at(line, line.len() - SIZE);
    unit_of_two(first, last)
}
