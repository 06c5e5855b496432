// Which edges a pass joins: each pass's rule, by the few fields that it asks for. The definitions are those of `pass_list`, specs/StoredPass.antt, which mirror
// those of the passes on numbers and marks: x is the chain there, y the next edge as it counts. `pass_rules::chain` reads the fields.
#![tactic(auto)]

pub mod counted; // counted.rt: the next edge as it counts in a pass
pub mod joined; // joined.rt: the edge over two that a pass joins
pub mod meets; // meets.rt: where a chain and the next edge meet
pub mod value; // value.rt: the value over two edges, by their decimals
pub mod chain; // chain.rt: what the next edge does to a chain

ghost use Rattle.std.specs.Prelude.{◌≡◌, ◌&&◌, not, cond, Some, None};
ghost use Rattle.pass_list.specs.StoredEdge.{StoredEdge};
ghost use Rattle.pass_list.specs.StoredPass.{StoredChain, comparable, d1_rule, g1_rule, g2_rule, g3_rule, g4_rule};

// D1 (the Rust's apply_d1_digits): whether the chain has more than one edge, and whether its edge and the next are digits.
pub fn d1_rule(more: bool, left: bool, next: bool) -> bool
    ensures { (x : StoredChain) (y : StoredEdge) → more ≡ x.more → left ≡ x.edge.digit → next ≡ y.digit
        → result ≡ d1_rule x y }
{
    (more | left) & next
}

// G1 (the Rust's apply_g1_multiplication): the base and the value of the chain's edge, and the base of the next, which may be a large power.
pub fn g1_rule(more: bool, left: u64, value: u64, base: u64, large: bool) -> bool
    ensures { (x : StoredChain) (y : StoredEdge) → more ≡ x.more → left ≡ x.edge.base
        → value ≡ x.edge.value → base ≡ y.base → large ≡ y.large_power → result ≡ g1_rule x y }
{
    !more & (left == 1) & (1 <= value) & (1 < base) & !large
}

// G2 (the Rust's apply_g2_addition): whether the chain has a value and neither is a large power; the base before a gap, where it is there to be compared with the next one's value
// and base; and whether the next is a gap.
pub fn g2_rule(plain: bool, near: Option<u64>, value: u64, base: u64, gap: bool) -> bool
    ensures { (x : StoredChain) (y : StoredEdge)
        → plain ≡ x.edge.has_value && not x.edge.large_power && not y.large_power
        → near ≡ cond (comparable x y) (Some x.near) None → value ≡ y.value → base ≡ y.base → gap ≡ y.gap
        → result ≡ g2_rule x y }
{
    let joins = match near {
        Some(near) => (value < near) & (base < near),
        None => gap,
    };
    plain & joins
}

// G3 (the Rust's apply_g3_large_power_multiplication): whether the chain's edge and the next have a value, and which is a large power.
pub fn g3_rule(more: bool, left: bool, left_large: bool, next: bool, large: bool) -> bool
    ensures { (x : StoredChain) (y : StoredEdge) → more ≡ x.more → left ≡ x.edge.has_value
        → left_large ≡ x.edge.large_power → next ≡ y.has_value → large ≡ y.large_power → result ≡ g3_rule x y }
{
    !more & left & !left_large & next & large
}

// G4 (the Rust's apply_g4_large_block_addition): whether the chain has a value and the next a value and a base; the base before, and the next one's value and base.
pub fn g4_rule(there: bool, left: u64, value: u64, base: u64) -> bool
    ensures { (x : StoredChain) (y : StoredEdge) → there ≡ x.edge.has_value && y.has_value && y.has_base
        → left ≡ x.edge.base → value ≡ y.value → base ≡ y.base → result ≡ g4_rule x y }
{
    there & (value < left) & (base < left)
}
