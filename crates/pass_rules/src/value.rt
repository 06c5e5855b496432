// The value over a chain's edge and the next, where the decimals of both let the pass join them (02, S-13): two whole edges as ever; of edges with decimals
// only one on the left, in G1 and G3, where the exact product is whole. The definitions are in specs/Over.antt and in `pass_list`, specs/StoredPass.antt.
ghost use Rattle.std.specs.Prelude.{◌≡◌, false, true, ◌&&◌, ℕ, ◌*◌, ◌/◌, ◌^◌, eqb};
ghost use Rattle.whole.specs.Answers.{value};
ghost use Rattle.pass_list.specs.StoredEdge.{StoredEdge, EdgeIs};
ghost use Rattle.pass_list.specs.StoredPass.{value_of, both_whole, whole_product, takes_decimal, decimals_fit};
ghost use Rattle.passes.specs.Passes.{G1};
ghost use Rattle.pass_list.specs.Answers.{pass_of};
ghost use Rattle.pass_rules.specs.Over.{over_answer};

use crate::joined::joined_value;
use pass_list::record::PassEdge;
use pass_list::run::Pass;
use whole::AboveTop;

fn known(v: Result<f64, AboveTop>) -> Result<Option<f64>, AboveTop>
    ensures { (n : ℕ) → v ≡ value n → result ≡ over_answer true n }
{
    Ok(Some(v?))
}

// The exact product of a written decimal and a whole edge, where it is whole.
fn product(l: PassEdge, r: PassEdge) -> Result<Option<f64>, AboveTop>
    requires { ((x : StoredEdge) × EdgeIs l x) × ((y : StoredEdge) × EdgeIs r y) }
    ensures { (x y : StoredEdge) → EdgeIs l x → EdgeIs r y
        → result ≡ over_answer (eqb y.decimals 0 && whole_product x y) (x.value * y.value / 10 ^ x.decimals) }
{
    if r.num.decimals != 0 {
        return Ok(None);
    }
    let digits = whole::exact_u64(l.num.value);
    let factor = whole::exact_u64(r.num.value);
    let Some(v) = decimals::exact_product(digits, l.num.decimals as u64, factor)? else {
        return Ok(None);
    };
    Ok(Some(whole::exact_f64(v)))
}

// G1 takes a written decimal of at least 1.
fn product_from_one(l: PassEdge, r: PassEdge) -> Result<Option<f64>, AboveTop>
    requires { ((x : StoredEdge) × EdgeIs l x) × ((y : StoredEdge) × EdgeIs r y) }
    ensures { (x y : StoredEdge) → EdgeIs l x → EdgeIs r y
        → result ≡ over_answer (eqb y.decimals 0 && takes_decimal G1 x y) (x.value * y.value / 10 ^ x.decimals) }
{
    let one = decimals::power_of_ten(l.num.decimals as u64);
    if one <= whole::exact_u64(l.num.value) {
        return product(l, r);
    }
    Ok(None)
}

// Where one of the two has decimals.
fn decimal_value(pass: Pass, l: PassEdge, r: PassEdge) -> Result<Option<f64>, AboveTop>
    requires { ((x : StoredEdge) × EdgeIs l x) × ((y : StoredEdge) × EdgeIs r y) }
    ensures { (x y : StoredEdge) → EdgeIs l x → EdgeIs r y → both_whole x y ≡ false
        → result ≡ over_answer (decimals_fit (pass_of pass) x y)
        (value_of (pass_of pass) x.decimals x.value y.value) }
{
    match pass {
        Pass::D1 => known(joined_value(Pass::D1, l.num.value, r.num.value)),
        Pass::G1 => product_from_one(l, r),
        Pass::G2 => Ok(None),
        Pass::G3 => product(l, r),
        Pass::G4 => Ok(None),
    }
}

// The value over l and r, as r counts.
pub fn value_over(pass: Pass, l: PassEdge, r: PassEdge) -> Result<Option<f64>, AboveTop>
    requires { ((x : StoredEdge) × EdgeIs l x) × ((y : StoredEdge) × EdgeIs r y) }
    ensures { (x y : StoredEdge) → EdgeIs l x → EdgeIs r y
        → result ≡ over_answer (decimals_fit (pass_of pass) x y)
        (value_of (pass_of pass) x.decimals x.value y.value) }
{
    if (l.num.decimals == 0) & (r.num.decimals == 0) {
        return known(joined_value(pass, l.num.value, r.num.value));
    }
    decimal_value(pass, l, r)
}
