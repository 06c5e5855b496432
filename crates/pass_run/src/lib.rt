// The loop of a pass (01, "Five passes, D1 to G4"), in place: the edges over the chains that ended stand at the list's front, what is to come behind the edge
// that is read. Most edges join no neighbour: a look at a few fields says so, and they are moved as bytes.
#![tactic(auto)]

pub mod look; // look.rt: whether a pass may join two edges, by a few fields in their bytes
pub mod take; // take.rt: whether it may join an edge to a chain, likewise
pub mod nth; // nth.rt: a pass by its number

ghost use Rattle.std.specs.Prelude.{◌≡◌, true, ◌+◌, ◌*◌, ◌-◌, ◌≤◌, ◌<◌, length};
ghost use Rattle.std.proofs.lemmas.List.Edits.{sets};
ghost use Rattle.fields.specs.Part.{part};
ghost use Rattle.pass_list.specs.StoredEdge.{Small, AllSmall};
ghost use Rattle.pass_list.specs.Layout.{SIZE};
ghost use Rattle.pass_list.specs.Stored.{stored_at, stored_list_at};
ghost use Rattle.pass_list.specs.StoredPass.{StoredChain};
ghost use Rattle.pass_list.specs.Answers.{pass_of, PassAnswerIs};
ghost use Rattle.pass_rules.specs.Chain.{ChainIs, answer};
ghost use Rattle.pass_run.specs.Ended.{Ended};
ghost use Rattle.pass_run.specs.Run.{First, RunIs};

use crate::look::may_join;
use crate::take::may_take;
use pass_list::layout::SIZE;
use pass_list::read::read_edge;
use pass_list::run::Pass;
use pass_list::write::write_edge;
use pass_rules::chain::Chain;
use text::Place;
use whole::AboveTop;

// Whether the i-th of n edges is a chain of its own, as far as that is told without reading it.
fn is_own_chain(list: &[u8], n: usize, i: usize, pass: Pass) -> bool
    requires { (i < n) × (n * SIZE ≤ length list.now) }
    ensures { result ≡ true
        → First (pass_of pass) list.now n i (i + 1) (stored_at list.now (i * SIZE)) }
{
    if i + 1 < n {
        return !may_join(list, i * SIZE, (i + 1) * SIZE, pass);
    }
    true
}

// The record at an offset is copied to an earlier one.
fn copy_record(list: &mut [u8], to: usize, from: usize)
    requires { (to + SIZE ≤ from) × (from + SIZE ≤ length list.old) }
    ensures { list.new ≡ sets list.old to (part list.old from SIZE) }
{
    list.copy_within(from..from + SIZE, to);
}

// The i-th edge becomes the k-th.
fn move_record(list: &mut [u8], k: usize, i: usize)
    requires { (k ≤ i) × ((i + 1) * SIZE ≤ length list.old) }
    ensures { Ended list.old k (i + 1) (stored_at list.old (i * SIZE))
        list.new }
{
    if k < i {
        copy_record(list, k * SIZE, i * SIZE);
    }
}

// What the edge at an offset does to the chain: it is read where the pass may join it.
fn next_of_chain(c: Chain, pass: Pass, list: &[u8], at: usize) -> Result<Option<Chain>, AboveTop>
    requires { ((x : StoredChain) × ChainIs c x) × (at + SIZE ≤ length list.now)
        × Small (stored_at list.now at) }
    ensures { (x : StoredChain) → ChainIs c x
        → result ≡ answer (pass_of pass) x (stored_at list.now at) }
{
    if may_take(c, list, at, pass) {
        return c.join(pass, read_edge(list, at));
    }
    Ok(None)
}

// The chain that the i-th of n edges begins: the edge over it becomes the k-th.
fn run_chain(list: &mut [u8], n: usize, k: usize, i: usize, pass: Pass) -> Result<usize, Place>
    requires { (k ≤ i) × (i < n) × (n * SIZE ≤ length list.old) × AllSmall (stored_list_at list.old i (n - i)) }
    ensures { RunIs (pass_of pass) list.old n k i list.new result }
{
    let mut chain = Chain::begin(read_edge(list, i * SIZE));
    // Kept as a while loop: where the chain ends, its end is the answer, and behind a for loop j is not known.
    let mut j = i + 1;
    while j < n {
        match next_of_chain(chain, pass, list, j * SIZE) {
            Ok(Some(longer)) => chain = longer,
            Ok(None) => break,
            Err(AboveTop) => return Err(chain.edge.start),
        }
        j += 1;
    }
    write_edge(list, k * SIZE, chain.edge);
    Ok(j)
}

// The chain that the i-th of n edges begins, with a look first whether it goes on at all.
fn step(list: &mut [u8], n: usize, k: usize, i: usize, pass: Pass) -> Result<usize, Place>
    requires { (k ≤ i) × (i < n) × (n * SIZE ≤ length list.old) × AllSmall (stored_list_at list.old i (n - i)) }
    ensures { RunIs (pass_of pass) list.old n k i list.new result }
{
    if is_own_chain(list, n, i, pass) {
        move_record(list, k, i);
        return Ok(i + 1);
    }
    run_chain(list, n, k, i, pass)
}

// A pass over the n edges of the list.
pub fn run_pass(list: &mut [u8], n: usize, pass: Pass) -> Result<usize, Place>
    requires { (n * SIZE ≤ length list.old) × AllSmall (stored_list_at list.old 0 n) }
    ensures { PassAnswerIs (pass_of pass) (stored_list_at list.old 0 n) list.new result }
{
    let mut i = 0;
    let mut k = 0;
    // Kept as a while loop: the step is the length of a chain, which no iterator of std gives.
    while i < n {
        i = step(list, n, k, i, pass)?;
        k += 1;
    }
    Ok(k)
}
