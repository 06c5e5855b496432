// How the blocks and the small that are read take the next character. The words of the contracts are those of specs/Numeral.antt, with `capped` for their sums.
ghost use Rattle.std.specs.Prelude.{◌≡◌, cond, ◌+◌};
ghost use Rattle.std.proofs.Math.Option.{none, some};
ghost use Rattle.numeral.specs.Numeral as Numeral;
ghost use Rattle.numeral.specs.Numeral.{in_numeral, in_small, opening, stands, nearest, grown, another, with_digit, with_ten, total, fits, with_block};
ghost use Rattle.numeral.specs.Field.{answered};
ghost use Rattle.numeral.specs.Walk.{capped, valued};

use crate::sums::{longer, plus, times};
use crate::{Atoms, Blocks, FieldRefusal};
use whole::TOP;

// A small's first atom, as its first character has it.
pub fn first_atom(value: u64, base: u64, lone: bool) -> Atoms
    ensures { result ≡ opening value base lone }
{
    Atoms {
        sum: 0,
        near: 0,
        first: true,
        value,
        base,
        lone,
    }
}

// The answer for a numeral of this value.
pub fn answer(value: u64) -> Result<Option<u64>, FieldRefusal>
    ensures { result ≡ answered (some value) }
{
    if value <= TOP {
        return Ok(Some(value));
    }
    Err(FieldRefusal::AboveTop)
}

impl Atoms {
    // "each later one has value and base below the base of that small's nearest earlier atom that isn't a lone 零"
    pub fn stands(self) -> bool
        ensures { result ≡ stands self }
    {
        self.first | ((self.value < self.near) & (self.base < self.near))
    }

    // That base for an atom behind the last one.
    fn nearest(self) -> u64
        ensures { result ≡ nearest self }
    {
        if self.lone & (self.value == 0) {
            return self.near;
        }
        self.base
    }

    // A small's value: "the sum".
    pub fn total(self) -> u64
        ensures { result ≡ total capped self }
    {
        plus(self.sum, self.value)
    }

    // The last atom goes on.
    fn grown(mut self, value: u64, base: u64) -> Atoms
        ensures { result ≡ grown self value base }
    {
        self.value = value;
        self.base = base;
        self.lone = false;
        self
    }

    // A next atom begins.
    fn another(self, value: u64, base: u64, lone: bool) -> Atoms
        ensures { result ≡ another capped self value base lone }
    {
        Atoms {
            sum: self.total(),
            near: self.nearest(),
            first: false,
            value,
            base,
            lone,
        }
    }

    // A digit goes on with a run, and begins one behind any other atom.
    pub fn with_digit(self, digit: u64) -> Atoms
        ensures { result ≡ with_digit capped self digit }
    {
        if self.base == 1 {
            return self.grown(longer(self.value, digit), 1);
        }
        self.another(digit, 1, true)
    }

    // "a run of value ≥ 1 followed by 十, 百 or 千 (product, that base); or one of these three not directly after such a run"
    pub fn with_ten(self, ten: u64) -> Atoms
        ensures { result ≡ with_ten capped self ten }
    {
        if (self.base == 1) & (self.value >= 1) {
            return self.grown(times(self.value, ten), ten);
        }
        self.another(ten, ten, false)
    }
}

impl Blocks {
    // "each member after the first has value and base below the base before it"
    pub fn fits(self, value: u64, base: u64) -> bool
        ensures { result ≡ fits self value base }
    {
        (self.base == 0) | ((value < self.base) & (base < self.base))
    }

    // One block more.
    pub fn with_block(self, value: u64, base: u64) -> Blocks
        ensures { result ≡ with_block capped self value base }
    {
        Blocks {
            sum: plus(self.sum, value),
            base,
        }
    }

    // The line ends behind a block, or is empty.
    pub fn ended(self) -> Option<u64>
        ensures { result ≡ valued (Numeral.result capped (in_numeral self)) }
    {
        if self.base == 0 {
            return None;
        }
        Some(self.sum)
    }

    // The line ends with a small that counts as this value and base.
    fn with_last(self, value: u64, base: u64) -> Option<u64>
        ensures { result ≡ valued (cond (fits self value base) (some (capped (self.sum + value))) none) }
    {
        if self.fits(value, base) {
            return Some(plus(self.sum, value));
        }
        None
    }

    // The line ends behind a small. "A last small that is a single 一 to 九 after a block counts as digit times base/10, with base/10."
    pub fn ended_small(self, s: Atoms) -> Option<u64>
        ensures { result ≡ valued (Numeral.result capped (in_small self s)) }
    {
        if (self.base != 0) & (s.first & (s.lone & (s.value >= 1))) {
            return self.with_last(times(s.value, self.base / 10), self.base / 10);
        }
        self.with_last(s.total(), s.base)
    }
}
