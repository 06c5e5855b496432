// Whether a pass may join an edge of the list to the one before, by a few fields in the list's bytes: most edges join no neighbour, and this says so before
// they are read. Where it says that the pass may, the pass's rule decides. `pass_run::take` asks the same of a chain.
ghost use Rattle.std.specs.Prelude.{◌≡◌, true, false, ◌+◌, ◌≤◌, length};
ghost use Rattle.pass_list.specs.Layout.{SIZE};
ghost use Rattle.pass_list.specs.Stored.{stored_at};
ghost use Rattle.pass_list.specs.StoredPass.{begin, touches, joins};
ghost use Rattle.pass_list.specs.StoredEdge.{StoredEdge};
ghost use Rattle.pass_list.specs.Answers.{pass_of};

use pass_list::layout;
use pass_list::run::Pass;

// Whether the pass may join an edge that does not touch the one at an offset: D1 goes over a point behind it, where its mark says that one stands there.
fn may_cross(list: &[u8], a: usize, pass: Pass) -> bool
    requires { a + SIZE ≤ length list.now }
    ensures { (y : StoredEdge) → touches (begin (stored_at list.now a)) y ≡ false
        → joins (pass_of pass) (begin (stored_at list.now a)) y ≡ true → result ≡ true }
{
    match pass {
        Pass::D1 => fields::u16_at(list, a + layout::MAP_AT) / layout::POINT % 2 == 1,
        Pass::G1 => false,
        Pass::G2 => false,
        Pass::G3 => false,
        Pass::G4 => false,
    }
}

// Whether the pass may join the edges at two offsets: where it does, these few fields say so.
pub fn may_join(list: &[u8], a: usize, b: usize, pass: Pass) -> bool
    requires { (a + SIZE ≤ length list.now) × (b + SIZE ≤ length list.now) }
    ensures { joins (pass_of pass) (begin (stored_at list.now a)) (stored_at list.now b)
        ≡ true → result ≡ true }
{
    if fields::u16_at(list, a + layout::END_AT) != fields::u16_at(list, b) {
        return may_cross(list, a, pass);
    }
    let l = fields::u16_at(list, a + layout::MAP_AT);
    let r = fields::u16_at(list, b + layout::MAP_AT);
    let base = fields::u64_at(list, a + layout::BASE_AT);
    let next = fields::u64_at(list, b + layout::BASE_AT);
    match pass {
        Pass::D1 => (l / layout::DIGIT % 2 == 1) & (r / layout::DIGIT % 2 == 1),
        Pass::G1 => (base == 1) & (1 < next) & !(r / layout::LARGE_POWER % 2 == 1),
        Pass::G2 => !(l / layout::LARGE_POWER % 2 == 1)
            & ((next < base) | (r / layout::GAP % 2 == 1)),
        Pass::G3 => !(l / layout::LARGE_POWER % 2 == 1) & (r / layout::LARGE_POWER % 2 == 1),
        Pass::G4 => (1000 <= base) | (next < base),
    }
}
