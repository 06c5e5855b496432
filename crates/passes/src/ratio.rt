// A fraction in lowest terms (01: "A fraction goes to lowest terms, 0/d to 0/1"), by Euclid's algorithm.
ghost use Rattle.std.specs.Prelude.{◌≡◌, ◌<◌};
ghost use Rattle.passes.specs.Characters as Characters;

#[derive(Clone, Copy)]
pub struct Ratio {
    pub numerator: u64,
    pub denominator: u64,
}

// The greatest number that divides both.
pub fn gcd(n: u64, d: u64) -> u64
    ensures { result ≡ Characters.gcd n d }
{
    let mut a = n;
    let mut b = d;
    while 0 < b {
        let rest = a % b;
        a = b;
        b = rest;
    }
    a
}

// The fraction in lowest terms.
pub fn lowest(numerator: u64, denominator: u64) -> Ratio
    requires { 0 < denominator }
    ensures { (result.numerator, result.denominator) ≡ Characters.lowest (numerator, denominator) }
{
    let g = gcd(numerator, denominator);
    Ratio {
        numerator: numerator / g,
        denominator: denominator / g,
    }
}
