// The whole call, `add_numbers` (01, "What a call is lent", "The rest of the call"): the checks in their order, then the stages. `add_numbers_without_singles` (02, S-12) is the
// same with one stage more, `add_numbers_with_decimals` (02, S-13) the same after passes that join decimals.
#![tactic(auto)]

pub mod checks; // checks.rt: the checks 2 to 6
pub mod last_stages; // last_stages.rt: the stages after the passes, in turn
pub mod stages; // stages.rt: all stages, up to the finished lattice
pub mod ending; // ending.rt: refusal 7, or the listing in the output, or refusal 8

ghost use Rattle.std.specs.Prelude.{◌≡◌, length};
ghost use Rattle.numbers.specs.Call.{answer_by, add_numbers, add_numbers_without_singles, add_numbers_with_decimals};
ghost use Rattle.call.specs.Kinds.{call_stages};
ghost use Rattle.call.specs.Answers.{AnswerIs};

use crate::stages::CallKind;
pub use answers::{Refusal, refusal_told};
use table::index::INDEX_SIZE;

// The least work space (refusal 1).
pub const WORK_SIZE: usize = 65536;

// Every call: the checks in their order, then the stages and their ending.
fn add_numbers_by(
    line: &[u8],
    table: &[u8],
    edges: &[u8],
    work: &mut [u8],
    out: &mut [u8],
    kind: CallKind,
) -> Result<usize, Refusal>
    ensures { AnswerIs out.old out.new result
        (answer_by (call_stages kind) line.now table.now edges.now
        (length work.old) (length out.old)) }
{
    if work.len() < WORK_SIZE {
        return Err(Refusal::ShortWork);
    }
    let mut index = [0u32; INDEX_SIZE];
    let mut entries: usize = 0;
    let (chars, shape, count) = crate::checks::check(line, table, edges, &mut index, &mut entries)?;
    let stages = crate::stages::run_stages(
        work, line, table, shape, chars, edges, count, &index, entries, kind,
    );
    crate::ending::finish_call(work, stages, out)
}

// The call: the written numbers of a line as edges, behind those given. A refused call leaves the output as it was.
pub fn add_numbers(
    line: &[u8],
    table: &[u8],
    edges: &[u8],
    work: &mut [u8],
    out: &mut [u8],
) -> Result<usize, Refusal>
    ensures { AnswerIs out.old out.new result
        (add_numbers line.now table.now edges.now (length work.old)
        (length out.old)) }
{
    add_numbers_by(line, table, edges, work, out, CallKind::First)
}

// The call in which some singles may not stand: the same, with their active bits off.
pub fn add_numbers_without_singles(
    line: &[u8],
    table: &[u8],
    edges: &[u8],
    work: &mut [u8],
    out: &mut [u8],
) -> Result<usize, Refusal>
    ensures { AnswerIs out.old out.new result
        (add_numbers_without_singles line.now table.now edges.now
        (length work.old) (length out.old)) }
{
    add_numbers_by(line, table, edges, work, out, CallKind::WithoutSingles)
}

// The call with decimals: D1 joins digits, a point and digits too.
pub fn add_numbers_with_decimals(
    line: &[u8],
    table: &[u8],
    edges: &[u8],
    work: &mut [u8],
    out: &mut [u8],
) -> Result<usize, Refusal>
    ensures { AnswerIs out.old out.new result
        (add_numbers_with_decimals line.now table.now edges.now
        (length work.old) (length out.old)) }
{
    add_numbers_by(line, table, edges, work, out, CallKind::WithDecimals)
}
