// The next edge as it counts in a pass (01, "Five passes, D1 to G4"): in D1 a digit of base 1, in G4 one digit by the base before it. The definitions are those of
// `pass_list`, specs/StoredPass.antt.
ghost use Rattle.std.specs.Prelude.{◌≡◌, ◌+◌, ◌*◌, ◌<◌};
ghost use Rattle.whole.specs.Answers.{value};
ghost use Rattle.passes.specs.Passes.{power_of_ten};
ghost use Rattle.pass_list.specs.StoredEdge.{StoredEdge, pass_edge, EdgeIs};
ghost use Rattle.pass_list.specs.StoredPass.{retags, retagged, counted};
ghost use Rattle.pass_list.specs.Answers.{pass_of};
ghost use Rattle.fields.specs.Fields.{u16_limit};

use pass_list::record::PassEdge;
use pass_list::run::Pass;

fn is_power_of_10(n: u64) -> bool
    ensures { result ≡ power_of_ten n }
{
    if n == 0 {
        return false;
    }
    let mut n = n;
    while n % 10 == 0 {
        n = n / 10;
    }
    n == 1
}

// G4: whether e counts as a tenth of the last one's base.
fn retags(last: PassEdge, e: PassEdge, right: u64) -> bool
    requires { e.start.0 < u16_limit }
    ensures { (x y : StoredEdge) → last ≡ pass_edge x → e ≡ pass_edge y → right ≡ y.value → result ≡ retags x y }
{
    let one_place = e.end.0 == e.start.0 + 1;
    if last.num.cjk & (1000 <= last.num.base) & one_place & (1 <= right) & (right <= 9) {
        return is_power_of_10(last.num.base);
    }
    false
}

// "the next counts as value times base/10, with base/10"
fn retagged(last: PassEdge, mut e: PassEdge) -> PassEdge
    requires { ((x : StoredEdge) × EdgeIs last x) × ((y : StoredEdge) × EdgeIs e y) }
    ensures { (x y : StoredEdge) → EdgeIs last x → EdgeIs e y → result ≡ pass_edge (retagged x y) }
{
    let tenth = last.num.base / 10;
    let v = e.num.value * whole::exact_f64(tenth);
    e.num.value = v;
    e.num.base = tenth;
    e.num.has_value = true;
    e.num.has_base = true;
    e
}

// The next edge as it counts: in D1 with base 1, in G4 retagged where that is due.
pub fn counted(pass: Pass, last: PassEdge, e: PassEdge) -> PassEdge
    requires { ((x : StoredEdge) × EdgeIs last x) × ((y : StoredEdge) × EdgeIs e y) }
    ensures { (x y : StoredEdge) → EdgeIs last x → EdgeIs e y → result ≡ pass_edge (counted (pass_of pass) x y) }
{
    match pass {
        Pass::D1 => {
            let mut e = e;
            e.num.base = 1;
            e.num.has_value = true;
            e.num.has_base = true;
            e
        }
        Pass::G4 => {
            if retags(last, e, whole::exact_u64(e.num.value)) {
                retagged(last, e)
            } else {
                e
            }
        }
        Pass::G1 => e,
        Pass::G2 => e,
        Pass::G3 => e,
    }
}
