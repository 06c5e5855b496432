// One step of pooling (02, S-6): a sum so far, in lowest terms, and a fraction more.
ghost use Rattle.std.specs.Prelude.{◌≡◌, ℕ, ◌≤◌, ◌<◌};
ghost use Rattle.whole.specs.Whole.{TOP};
ghost use Rattle.wide.specs.Numbers.{wide};
ghost use Rattle.shares.specs.Pool as Pool;
ghost use Rattle.shares.specs.Answers.{Reduced, fraction_of, pooled};

use passes::ratio::{Ratio, gcd, lowest};
use wide::Wide;

// A fraction of two numbers in parts, unless one is above TOP.
fn narrow(above: Wide, below: Wide) -> Option<Ratio>
    ensures { (n d : ℕ) → above ≡ wide n → below ≡ wide d → result ≡ pooled (Pool.unless_above (n, d)) }
{
    if wide::fits(above) & wide::fits(below) {
        Some(Ratio {
            numerator: above.lo,
            denominator: below.lo,
        })
    } else {
        None
    }
}

// The sum of two fractions in lowest terms. What the denominators have in common counts once; of that alone a part can divide the sum's numerator
// and denominator (Knuth, The Art of Computer Programming, volume 2, 4.5.1).
fn add(f: Ratio, g: Ratio) -> Option<Ratio>
    requires { Reduced f × Reduced g }
    ensures { result ≡ pooled (Pool.pool (fraction_of f) (fraction_of g)) }
{
    let common = gcd(f.denominator, g.denominator);
    let x = f.denominator / common;
    let top = wide::products(f.numerator, g.denominator / common, g.numerator, x);
    let left = wide::divide(top, common);
    let again = gcd(common, left.rest);
    let reduced = wide::divide(top, again);
    let above = reduced.quotient;
    narrow(above, wide::product(x, g.denominator / again))
}

// The sum and a fraction as it is listed, perhaps not in lowest terms.
pub fn pool(sum: Ratio, n: u64, d: u64) -> Option<Ratio>
    requires { Reduced sum × (n ≤ TOP) × (d ≤ TOP) × (0 < d) }
    ensures { result ≡ pooled (Pool.pool (fraction_of sum) (n, d)) }
{
    add(sum, lowest(n, d))
}
