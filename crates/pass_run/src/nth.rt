// One of the five passes by its number, on the list in the work space, behind an offset (01, "Five passes, D1 to G4").
ghost use Rattle.std.specs.Prelude.{◌≡◌, ◌+◌, ◌*◌, ◌≤◌, ◌<◌, length, take, drop};
ghost use Rattle.pass_list.specs.StoredEdge.{AllSmall};
ghost use Rattle.pass_list.specs.Layout.{SIZE};
ghost use Rattle.pass_list.specs.Stored.{stored_list_at};
ghost use Rattle.pass_list.specs.Answers.{pass_of, PassAnswerIs};
ghost use Rattle.pass_run.specs.Nth.{nth};

use crate::run_pass;
use pass_list::run::Pass;
use text::Place;

// The i-th pass, counted from 0: in the Rust apply_d1_digits, apply_g1_multiplication, apply_g2_addition, apply_g3_large_power_multiplication and
// apply_g4_large_block_addition.
// Kept as a function with a requires: From or TryFrom would have to answer to the other numbers too.
fn pass_of(i: usize) -> Pass
    requires { i < 5 }
    ensures { pass_of result ≡ nth i }
{
    match i {
        0 => Pass::D1,
        1 => Pass::G1,
        2 => Pass::G2,
        3 => Pass::G3,
        _ => Pass::G4,
    }
}

// The i-th pass over the list that stands in the work space from an offset on; what stands before it stays as it is.
pub fn pass_behind(work: &mut [u8], from: usize, n: usize, i: usize) -> Result<usize, Place>
    requires { (from + n * SIZE ≤ length work.old) × AllSmall (stored_list_at (drop from work.old) 0 n)
        × (i < 5) }
    ensures { (take from work.new ≡ take from work.old)
        × PassAnswerIs (nth i) (stored_list_at (drop from work.old) 0 n) (drop from work.new) result }
{
    run_pass(&mut work[from..], n, pass_of(i))
}
