// The call over a compiled plan with a result slice of its own: checked, placed, done and copied out.
ghost use Rattle.std.specs.Prelude.{◌≡◌, ◌≤◌, length};
ghost use Rattle.masking.specs.Foretold.{Accepted, foretold_tape};
ghost use Rattle.checks.specs.Answers.{answer_of};
ghost use Rattle.masked_call.specs.Shares.{call_answer, result_after, result_shares, shares_of, work_after, zeros_for};

use crate::compiled_plan::CompiledPlan;
use crate::run::done;
use checks::refusal::{Counts, Refusal};
use masked_call::one_operand::NONE;
use masked_call::operation::operation_answer;
use masked_work::{end, place};

// The operands placed, over whatever the work slice held, and the plan's words on them: no other register is read before it is written.
pub(crate) fn finish<P: CompiledPlan>(x: &[u64], y: &[u64], tape: &[u64], work: &mut [u64])
    requires { Accepted (length x.now) P.plan × (length y.now ≡ length x.now) × (length work.old ≡ 512) × (foretold_tape (length x.now) P.plan ≤ length tape.now) }
    ensures { shares_of (length x.now) 2 work.new ≡ result_shares P.plan (length x.now) x.now y.now tape.now }
{
    place(x, y, work);
    done::<P>(x.len(), tape, 0, work);
}

// The answer first; only where it is no turn-down is anything written.
pub fn call<P: CompiledPlan>(
    x: &[u64],
    y: &[u64],
    res: &mut [u64],
    work: &mut [u64],
    tape: &[u64],
) -> Result<Counts, Refusal>
    ensures answer { answer_of result ≡ call_answer P.plan x.now y.now res.old work.old tape.now }
    ensures res { res.new ≡ result_after P.plan x.now y.now res.old work.old tape.now }
    ensures work { work.new ≡ work_after P.plan x.now y.now res.old work.old tape.now }
{
    let counts = operation_answer(
        P::UNITS,
        x.len(),
        y.len(),
        res.len(),
        work.len(),
        tape.len(),
    )?;
    finish::<P>(x, y, tape, work);
    end(work, res);
    Ok(counts)
}

// Of a plan that reads one operand: the second is zeros, as many as that has words, but eight at most, which is all that is not turned down.
pub fn call_of_one<P: CompiledPlan>(
    x: &[u64],
    res: &mut [u64],
    work: &mut [u64],
    tape: &[u64],
) -> Result<Counts, Refusal>
    ensures answer { answer_of result ≡ call_answer P.plan x.now (zeros_for x.now) res.old work.old tape.now }
    ensures res { res.new ≡ result_after P.plan x.now (zeros_for x.now) res.old work.old tape.now }
    ensures work { work.new ≡ work_after P.plan x.now (zeros_for x.now) res.old work.old tape.now }
{
    let zeros = NONE;
    let n = x.len().min(8);
    call::<P>(x, &zeros[..n], res, work, tape)
}
