// A chain of touching edges, as far as a pass's rule goes (01: "a chain state with sum and last base takes the next atom by a method with mut self and hands
// itself back"): how it begins, and what the next edge does to it. The definitions are in specs/Chain.antt and in `pass_list`, specs/StoredPass.antt.
ghost use Rattle.std.specs.Prelude.{◌≡◌};
ghost use Rattle.pass_list.specs.StoredEdge.{StoredEdge, pass_edge, EdgeIs};
ghost use Rattle.pass_list.specs.StoredPass.{StoredChain, begin, rule};
ghost use Rattle.pass_list.specs.Answers.{pass_of};
ghost use Rattle.pass_rules.specs.Chain.{pass_chain, ChainIs, answer};

use crate::counted::counted;
use crate::joined::joined_edge;
use crate::meets::{joined_decimals, meets};
use crate::value::value_over;
use crate::{d1_rule, g1_rule, g2_rule, g3_rule, g4_rule};
use pass_list::record::PassEdge;
use pass_list::run::Pass;
use whole::AboveTop;

#[derive(Clone, Copy)]
pub struct Chain {
    // the edge over the chain: its value is the sum so far, its base the last one's
    pub edge: PassEdge,
    // whether anything was joined
    pub more: bool,
    // the base of the chain's nearest edge, from its end, that isn't a gap
    pub near: Option<u64>,
}

// Whether the pass joins e, as it counts, to the chain, where they touch.
fn ruled(pass: Pass, c: Chain, e: PassEdge) -> bool
    requires { ((x : StoredChain) × ChainIs c x) × ((y : StoredEdge) × EdgeIs e y) }
    ensures { (x : StoredChain) (y : StoredEdge) → ChainIs c x → EdgeIs e y → result ≡ rule (pass_of pass) x y }
{
    let value = whole::exact_u64(e.num.value);
    match pass {
        Pass::D1 => d1_rule(c.more, c.edge.num.digit, e.num.digit),
        Pass::G1 => {
            let left = whole::exact_u64(c.edge.num.value);
            g1_rule(c.more, c.edge.num.base, left, e.num.base, e.num.large_power)
        }
        Pass::G2 => {
            let plain = c.edge.num.has_value & !c.edge.num.large_power & !e.num.large_power;
            let near = if e.num.has_value & e.num.has_base {
                c.near
            } else {
                None
            };
            g2_rule(plain, near, value, e.num.base, e.num.gap)
        }
        Pass::G3 => g3_rule(
            c.more,
            c.edge.num.has_value,
            c.edge.num.large_power,
            e.num.has_value,
            e.num.large_power,
        ),
        Pass::G4 => {
            let there = c.edge.num.has_value & e.num.has_value & e.num.has_base;
            g4_rule(there, c.edge.num.base, value, e.num.base)
        }
    }
}

impl Chain {
    // The chain that an edge begins.
    pub fn begin(e: PassEdge) -> Self
        ensures { (y : StoredEdge) → e ≡ pass_edge y → result ≡ pass_chain (begin y) }
    {
        let near = if e.num.gap { None } else { Some(e.num.base) };
        Chain {
            edge: e,
            more: false,
            near: near,
        }
    }

    // The chain takes the next edge, where the pass joins it, and hands itself back.
    pub fn join(mut self, pass: Pass, e: PassEdge) -> Result<Option<Chain>, AboveTop>
        requires { ((x : StoredChain) × ChainIs self x) × ((y : StoredEdge) × EdgeIs e y) }
        ensures { (x : StoredChain) (y : StoredEdge) → ChainIs self x → EdgeIs e y
            → result ≡ answer (pass_of pass) x y }
    {
        let last = self.edge;
        if !meets(pass, last, e) {
            return Ok(None);
        }
        let r = counted(pass, last, e);
        if !ruled(pass, self, r) {
            return Ok(None);
        }
        let Some(v) = value_over(pass, last, r)? else {
            return Ok(None);
        };
        let decimals = joined_decimals(pass, last, e);
        self.edge = joined_edge(pass, last, r, v, decimals);
        self.more = true;
        if !e.num.gap {
            self.near = Some(e.num.base);
        }
        Ok(Some(self))
    }
}
