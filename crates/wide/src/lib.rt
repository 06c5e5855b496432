// Exact whole numbers beyond 64 bits, in two parts: a product of two numbers up to TOP, a sum of two of these, its quotient and rest by a third, and
// whether it is above TOP.
#![tactic(auto)]

ghost use Rattle.std.specs.Prelude.{◌≡◌, ◌+◌, ◌*◌, ◌≤◌, ◌<◌, leb};
ghost use Rattle.whole.specs.Whole.{TOP};
ghost use Rattle.wide.specs.Numbers.{Parts, wide_of, wide, divided, exact_quotient};

use whole::{AboveTop, TOP};

// 2 ^ 55: where the upper part begins.
const RADIX: u64 = 36028797018963968;

// 2 ^ 28 and 2 ^ 27: where the factors of a product are cut, so that the product of their upper halves begins at RADIX.
const LEFT_HALF: u64 = 268435456;

const RIGHT_HALF: u64 = 134217728;

// 2 ^ 11: the lower part is divided by five digits of 11 bits.
const DIGIT: u64 = 2048;

// The number hi * RADIX + lo.
#[derive(Clone, Copy)]
pub struct Wide {
    pub hi: u64,
    pub lo: u64,
}

// A quotient, and what is left.
#[derive(Clone, Copy)]
pub struct Division {
    pub quotient: Wide,
    pub rest: u64,
}

// a * b by the products of their halves, and what these carry.
pub fn product(a: u64, b: u64) -> Wide
    requires { (a ≤ TOP) × (b ≤ TOP) }
    ensures { result ≡ wide (a * b) }
{
    let a1 = a / LEFT_HALF;
    let a0 = a % LEFT_HALF;
    let b1 = b / RIGHT_HALF;
    let b0 = b % RIGHT_HALF;
    let x = a1 * b0;
    let y = a0 * b1;
    let low = x % RIGHT_HALF * LEFT_HALF + y % LEFT_HALF * RIGHT_HALF + a0 * b0;
    Wide {
        hi: a1 * b1 + x / RIGHT_HALF + y / LEFT_HALF + low / RADIX,
        lo: low % RADIX,
    }
}

// The sum of two such products.
pub fn sum(x: Wide, y: Wide) -> Wide
    requires { Parts x × Parts y }
    ensures { result ≡ wide (wide_of x + wide_of y) }
{
    let low = x.lo + y.lo;
    Wide {
        hi: x.hi + y.hi + low / RADIX,
        lo: low % RADIX,
    }
}

// a * b + c * d.
pub fn products(a: u64, b: u64, c: u64, d: u64) -> Wide
    requires { (a ≤ TOP) × (b ≤ TOP) × (c ≤ TOP) × (d ≤ TOP) }
    ensures { result ≡ wide (a * b + c * d) }
{
    sum(product(a, b), product(c, d))
}

// Whether it is at most TOP.
pub fn fits(x: Wide) -> bool
    ensures { result ≡ leb (wide_of x) TOP }
{
    (x.hi == 0) & (x.lo <= TOP)
}

// The quotient and the rest by d: the upper part at once, then the lower part digit by digit, for which a rest below 2 ^ 53 leaves room.
pub fn divide(x: Wide, d: u64) -> Division
    requires { Parts x × (0 < d) × (d ≤ TOP) }
    ensures { result ≡ divided (wide_of x) d }
{
    let upper = x.hi / d;
    let mut lower = 0;
    let mut rest = x.hi % d;
    let mut left = x.lo;
    let mut scale = RADIX;
    // Kept as a while: the scale is what a turn divides by and what ends the loop; a range would count the five digits beside it.
    while 1 < scale {
        scale = scale / DIGIT;
        let next = rest * DIGIT + left / scale;
        left = left % scale;
        lower = lower * DIGIT + next / d;
        rest = next % d;
    }
    Division {
        quotient: Wide {
            hi: upper,
            lo: lower,
        },
        rest: rest,
    }
}

// a * b / d, where that is whole.
pub fn exact(a: u64, b: u64, d: u64) -> Result<Option<u64>, AboveTop>
    requires { (a ≤ TOP) × (b ≤ TOP) × (0 < d) × (d ≤ TOP) }
    ensures { result ≡ exact_quotient (a * b) d }
{
    let by = divide(product(a, b), d);
    if 0 < by.rest {
        return Ok(None);
    }
    let whole = by.quotient;
    if fits(whole) {
        Ok(Some(whole.lo))
    } else {
        Err(AboveTop)
    }
}
