// The end of the call: refusal 7, or the finished listing in the output, or refusal 8.
ghost use Rattle.std.specs.Prelude.{length};
ghost use Rattle.numbers.specs.Call as numbers;
ghost use Rattle.call.specs.Answers.{AnswerIs};
ghost use Rattle.call.specs.Stages.{Leads};

use answers::Refusal;
use lattice::Lattice;
use text::Place;

// What the call answers for what its stages answered. The output is written only here.
pub fn finish_call(
    work: &[u8],
    stages: Result<Lattice, Place>,
    out: &mut [u8],
) -> Result<usize, Refusal>
    requires { (a : numbers.Answer) × Leads work.now (length out.old) stages a }
    ensures { (a : numbers.Answer) → Leads work.now (length out.old) stages a
        → AnswerIs out.old out.new result a }
{
    let lattice = stages.map_err(Refusal::AboveTop)?;
    let len = lattice::ends::finish(work, lattice, out).ok_or(Refusal::TooLong)?;
    Ok(len)
}
