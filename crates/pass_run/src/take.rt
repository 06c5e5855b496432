// Whether a pass may join an edge of the list to a chain, by a few fields in the list's bytes, before it is read: `pass_run::look` asks the same of two edges.
ghost use Rattle.std.specs.Prelude.{◌≡◌, true, ◌&&◌, cond, ltb, Some, None, ◌+◌, ◌≤◌, length};
ghost use Rattle.pass_list.specs.Layout.{SIZE};
ghost use Rattle.pass_list.specs.Stored.{stored_at};
ghost use Rattle.pass_list.specs.StoredPass.{StoredChain, joins};
ghost use Rattle.pass_list.specs.Answers.{pass_of};
ghost use Rattle.pass_rules.specs.Chain.{pass_chain};

use pass_list::layout;
use pass_list::run::Pass;
use pass_rules::chain::Chain;

// Whether a base is below the one that it is held against, where there is one.
fn is_below(base: u64, near: Option<u64>) -> bool
    ensures { (x : StoredChain) → near ≡ cond x.has_near (Some x.near) None
        → result ≡ x.has_near && ltb base x.near }
{
    match near {
        Some(near) => base < near,
        None => false,
    }
}

// Whether the pass may join the edge at an offset to a chain. Kept apart from `look::may_join`: of a chain other fields are asked, and no arm is the same.
pub fn may_take(c: Chain, list: &[u8], at: usize, pass: Pass) -> bool
    requires { at + SIZE ≤ length list.now }
    ensures { (x : StoredChain) → c ≡ pass_chain x
        → joins (pass_of pass) x (stored_at list.now at) ≡ true → result ≡ true }
{
    let start = fields::u16_at(list, at) as usize;
    let r = fields::u16_at(list, at + layout::MAP_AT);
    let next = fields::u64_at(list, at + layout::BASE_AT);
    let touches = c.edge.end.0 == start;
    match pass {
        Pass::D1 => (touches | c.edge.num.point) & (r / layout::DIGIT % 2 == 1),
        Pass::G1 => touches & !c.more,
        Pass::G2 => touches & (is_below(next, c.near) | (r / layout::GAP % 2 == 1)),
        Pass::G3 => touches & !c.more,
        Pass::G4 => touches & ((1000 <= c.edge.num.base) | (next < c.edge.num.base)),
    }
}
