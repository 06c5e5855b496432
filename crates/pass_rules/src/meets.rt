// Where a chain and the next edge meet (01: "touching neighbours"; 02, S-13: D1 goes over one point), and the decimals over both. The definitions are those of
// `pass_list`, specs/StoredPass.antt.
ghost use Rattle.std.specs.Prelude.{◌≡◌, ◌^◌, ◌<◌};
ghost use Rattle.pass_list.specs.StoredEdge.{StoredEdge, pass_edge};
ghost use Rattle.pass_list.specs.StoredPass.{StoredChain, over_point, meets, joined_decimals};
ghost use Rattle.pass_list.specs.Answers.{pass_of};
ghost use Rattle.passes.specs.Passes.{D1};
ghost use Rattle.fields.specs.Fields.{u16_limit};

use pass_list::record::PassEdge;
use pass_list::run::Pass;

// How many decimals D1 takes.
const DECIMALS: u16 = 15;

// Whether a point stands between the last edge of a chain and the next, and the chain has gone over none.
fn over_point(last: PassEdge, e: PassEdge) -> bool
    requires { last.end.0 < u16_limit }
    ensures { (x : StoredChain) (y : StoredEdge) → last ≡ pass_edge x.edge → e ≡ pass_edge y
        → result ≡ over_point x y }
{
    last.num.point & ((last.num.decimals == 0) & (e.start.0 == last.end.0 + 1))
}

// Whether the edges touch; in D1 a point may stand between them, and a sixteenth decimal stays outside.
pub fn meets(pass: Pass, last: PassEdge, e: PassEdge) -> bool
    requires { last.end.0 < u16_limit }
    ensures { (x : StoredChain) (y : StoredEdge) → last ≡ pass_edge x.edge → e ≡ pass_edge y
        → result ≡ meets (pass_of pass) x y }
{
    let touches = last.end.0 == e.start.0;
    match pass {
        Pass::D1 => (touches & (last.num.decimals < DECIMALS)) | over_point(last, e),
        Pass::G1 => touches,
        Pass::G2 => touches,
        Pass::G3 => touches,
        Pass::G4 => touches,
    }
}

// The decimals of a row with a digit more.
fn with_digit(last: PassEdge, e: PassEdge) -> u16
    requires { last.num.decimals < 2 ^ 4 }
    ensures { (x : StoredChain) (y : StoredEdge) → last ≡ pass_edge x.edge → e ≡ pass_edge y
        → result ≡ joined_decimals D1 x y }
{
    if last.end.0 != e.start.0 {
        return 1;
    }
    if last.num.decimals == 0 {
        return 0;
    }
    last.num.decimals + 1
}

// The decimals of the edge over both.
pub fn joined_decimals(pass: Pass, last: PassEdge, e: PassEdge) -> u16
    requires { last.num.decimals < 2 ^ 4 }
    ensures { (x : StoredChain) (y : StoredEdge) → last ≡ pass_edge x.edge → e ≡ pass_edge y
        → result ≡ joined_decimals (pass_of pass) x y }
{
    match pass {
        Pass::D1 => with_digit(last, e),
        Pass::G1 => 0,
        Pass::G2 => 0,
        Pass::G3 => 0,
        Pass::G4 => 0,
    }
}
