// The call over a compiled plan that replaces its first operand: the call of `calls` whose result slice is that operand.
ghost use Rattle.std.specs.Prelude.{◌≡◌};
ghost use Rattle.checks.specs.Answers.{answer_of};
ghost use Rattle.masked_call.specs.Shares.{call_answer, result_after, work_after, zeros_for};

use crate::calls::finish;
use crate::compiled_plan::CompiledPlan;
use checks::refusal::{Counts, Refusal};
use masked_call::one_operand::NONE;
use masked_call::operation::operation_answer;
use masked_work::end;

// The same, with x for the result slice.
pub fn call<P: CompiledPlan>(
    x: &mut [u64],
    y: &[u64],
    work: &mut [u64],
    tape: &[u64],
) -> Result<Counts, Refusal>
    ensures answer { answer_of result ≡ call_answer P.plan x.old y.now x.old work.old tape.now }
    ensures x { x.new ≡ result_after P.plan x.old y.now x.old work.old tape.now }
    ensures work { work.new ≡ work_after P.plan x.old y.now x.old work.old tape.now }
{
    let counts = operation_answer(P::UNITS, x.len(), y.len(), x.len(), work.len(), tape.len())?;
    finish::<P>(x, y, tape, work);
    end(work, x);
    Ok(counts)
}

// Of a plan that reads one operand: the second is zeros.
pub fn call_of_one<P: CompiledPlan>(
    x: &mut [u64],
    work: &mut [u64],
    tape: &[u64],
) -> Result<Counts, Refusal>
    ensures answer { answer_of result ≡ call_answer P.plan x.old (zeros_for x.old) x.old work.old tape.now }
    ensures x { x.new ≡ result_after P.plan x.old (zeros_for x.old) x.old work.old tape.now }
    ensures work { work.new ≡ work_after P.plan x.old (zeros_for x.old) x.old work.old tape.now }
{
    let zeros = NONE;
    let n = x.len().min(8);
    call::<P>(x, &zeros[..n], work, tape)
}
