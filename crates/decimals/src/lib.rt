// A written decimal (02, S-13), as 1.5: its digits without the point, and how many of them stand after it, at most 15. Its f64, and its exact product with a
// whole number. The definitions are in specs/Quotient.antt, and in `wide`, specs/Numbers.antt.
#![tactic(auto)]

ghost use Rattle.std.specs.Prelude.{◌≡◌, ℕ, ◌*◌, ◌^◌, ◌≤◌};
ghost use Rattle.whole.specs.Whole.{TOP, of_nat};
ghost use Rattle.wide.specs.Numbers.{exact_quotient};
ghost use Rattle.decimals.specs.Quotient.{quotient};

use whole::AboveTop;

pub fn power_of_ten(decimals: u64) -> u64
    requires { decimals ≤ 15 }
    ensures { result ≡ 10 ^ decimals }
{
    10u64.pow(decimals as u32)
}

// The f64 that a listing has for a written decimal: both operands are exact, so that it is rounded once.
pub fn quotient(digits: f64, decimals: u64) -> f64
    requires { decimals ≤ 15 }
    ensures { (n : ℕ) → digits ≡ of_nat n → result ≡ quotient n decimals }
{
    digits / whole::exact_f64(power_of_ten(decimals))
}

// A written decimal times a whole number, where that is whole.
pub fn exact_product(digits: u64, decimals: u64, factor: u64) -> Result<Option<u64>, AboveTop>
    requires { (digits ≤ TOP) × (decimals ≤ 15) × (factor ≤ TOP) }
    ensures { result ≡ exact_quotient (digits * factor) (10 ^ decimals) }
{
    wide::exact(digits, factor, power_of_ten(decimals))
}
