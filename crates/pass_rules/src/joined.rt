// What a pass makes of two edges that it joins: the value over both and the edge over both. The definitions are those of `pass_list`, specs/StoredPass.antt.
ghost use Rattle.std.specs.Prelude.{◌≡◌, ℕ, ◌+◌, ◌*◌, ◌≤◌, eqb};
ghost use Rattle.whole.specs.Whole.{TOP, of_nat};
ghost use Rattle.whole.specs.Answers.{value};
ghost use Rattle.pass_list.specs.StoredEdge.{StoredEdge, pass_edge};
ghost use Rattle.pass_list.specs.StoredPass.{value_of, kind_of, over};
ghost use Rattle.pass_list.specs.Answers.{pass_of};

use pass_list::kind::Kind;
use pass_list::record::PassEdge;
use pass_list::run::Pass;
use text::Offset;
use whole::AboveTop;

// The value that a further digit makes.
fn with_digit(l: f64, r: f64) -> Result<f64, AboveTop>
    ensures { (m n : ℕ) → m ≤ TOP → n ≤ TOP → l ≡ of_nat m → r ≡ of_nat n → result ≡ value (10 * m + n) }
{
    let tens = whole::product(10.0, l)?;
    whole::sum(tens, r)
}

// The value over a chain of value l and a next edge that counts r, both without decimals; D1's with any.
pub fn joined_value(pass: Pass, l: f64, r: f64) -> Result<f64, AboveTop>
    ensures { (m n : ℕ) → m ≤ TOP → n ≤ TOP → l ≡ of_nat m → r ≡ of_nat n
        → result ≡ value (value_of (pass_of pass) 0 m n) }
{
    match pass {
        Pass::D1 => with_digit(l, r),
        Pass::G1 => whole::product(l, r),
        Pass::G2 => whole::sum(l, r),
        Pass::G3 => whole::product(l, r),
        Pass::G4 => whole::sum(l, r),
    }
}

// G3 makes a large power.
fn makes_large_power(pass: Pass) -> bool
    ensures { result ≡ eqb (kind_of (pass_of pass)) 4 }
{
    matches!(pass, Pass::G3)
}

// The edge over l and r, of value v with so many decimals.
pub fn joined_edge(pass: Pass, l: PassEdge, r: PassEdge, v: f64, decimals: u16) -> PassEdge
    ensures { (x y : StoredEdge) (n : ℕ) → l ≡ pass_edge x → r ≡ pass_edge y → v ≡ of_nat n
        → result ≡ pass_edge (over (pass_of pass) x y n decimals) }
{
    let large_power = makes_large_power(pass);
    let start = l.start;
    let end = r.end;
    let mut num = r.num;
    num.value = v;
    num.has_value = true;
    num.base_multiplier = 0.0;
    num.has_mult = false;
    num.large_power = large_power;
    num.digit = false;
    num.gap = false;
    num.decimals = decimals;
    PassEdge {
        start: start,
        end: end,
        kind: Kind::Joined(pass),
        record_at: Offset(0),
        num: num,
    }
}
