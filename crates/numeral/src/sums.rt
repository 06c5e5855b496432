// Sums and products that stop counting above TOP: a run may have 256 digits.
ghost use Rattle.std.specs.Prelude.{◌≡◌, ◌+◌, ◌*◌};
ghost use Rattle.numeral.specs.Walk.{capped};

use whole::TOP;

pub fn plus(a: u64, b: u64) -> u64
    ensures { result ≡ capped (a + b) }
{
    if a > TOP {
        return TOP + 1;
    }
    if b > TOP - a {
        return TOP + 1;
    }
    a + b
}

// Up to these bounds, which a numeral seldom passes, a product needs no quotient: 8,191 × 1,000,000,000,000 is below TOP.
pub fn times(a: u64, b: u64) -> u64
    ensures { result ≡ capped (a * b) }
{
    if (a < 8192) & (b <= 1000000000000) {
        return a * b;
    }
    if b == 0 {
        return 0;
    }
    if a > TOP / b {
        return TOP + 1;
    }
    a * b
}

// A run with one digit more.
pub fn longer(run: u64, digit: u64) -> u64
    ensures { result ≡ capped (10 * run + digit) }
{
    if run > TOP / 10 {
        return TOP + 1;
    }
    plus(10 * run, digit)
}
