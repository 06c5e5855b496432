// f64 values that are whole numbers up to TOP: what the Rust has `f64` for. Whole numbers are `of_nat` of specs/Whole.antt.
#![tactic(auto)]

pub mod decimal; // decimal.rt: a whole number in decimal

ghost use Rattle.std.specs.Prelude.{◌≡◌, ℕ, ◌+◌, ◌*◌, ◌≤◌};
ghost use Rattle.whole.specs.Whole.{TOP, of_nat};
ghost use Rattle.whole.specs.Answers.{value};

// 01's TOP, 2 ^ 53 - 1: every whole number up to it is an f64.
pub const TOP: u64 = 9007199254740991;

// A product or a sum is above TOP (refusal 7).
#[derive(Clone, Copy)]
pub struct AboveTop;

// x, or that it is above TOP: exact also where x is a product or a sum that was rounded.
fn fit(x: f64) -> Result<f64, AboveTop>
    ensures { (k : ℕ) → x ≡ of_nat k → result ≡ value k }
{
    if x > exact_f64(TOP) {
        Err(AboveTop)
    } else {
        Ok(x)
    }
}

pub fn product(a: f64, b: f64) -> Result<f64, AboveTop>
    ensures { (m n : ℕ) → m ≤ TOP → n ≤ TOP → a ≡ of_nat m → b ≡ of_nat n → result ≡ value (m * n) }
{
    fit(a * b)
}

pub fn sum(a: f64, b: f64) -> Result<f64, AboveTop>
    ensures { (m n : ℕ) → m ≤ TOP → n ≤ TOP → a ≡ of_nat m → b ≡ of_nat n → result ≡ value (m + n) }
{
    fit(a + b)
}

// The whole number that x is; of any other x its whole part, and 0 where a u64 has none.
pub fn whole_part(x: f64) -> u64
    ensures { (n : ℕ) → n ≤ TOP → x ≡ of_nat n → result ≡ n }
{
    if (-1.0 < x) & (x < 18446744073709551616.0) {
        std::num::truncating_f64_to_u64(x)
    } else {
        0
    }
}

// The casts where the number is known to be up to TOP: one step of the processor each.
pub fn exact_f64(n: u64) -> f64
    requires { n ≤ TOP }
    ensures { result ≡ of_nat n }
{
    (n as i64) as f64
}

pub fn exact_u64(x: f64) -> u64
    requires { (n : ℕ) × (n ≤ TOP) × (x ≡ of_nat n) }
    ensures { (n : ℕ) → n ≤ TOP → x ≡ of_nat n → result ≡ n }
{
    (x as i64) as u64
}
