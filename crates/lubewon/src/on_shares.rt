// The operations on shares for C. What holds of them is `Masked`; how many tape words they report, `RandomWords`.
ghost use Rattle.std.specs.Prelude.{◌≡◌};
ghost use Rattle.plans.specs.words.ProductPlan.{product_plan};
ghost use Rattle.plans.specs.words.SumPlan.{sum_plan};
ghost use Rattle.plans.specs.words.FloorPlan.{floor_plan};
ghost use Rattle.plans.specs.words.TruncatePlan.{truncate_plan};
ghost use Rattle.plans.specs.words.NearestPlan.{nearest_plan};
ghost use Rattle.operations.specs.Masked.{Masked};
ghost use Rattle.operations.specs.RandomWords.{RandomWords};
ghost use Rattle.masked_call.specs.Shares.{call_answer, result_after, work_after, zeros_for};

use checks::answer::Answer;

// The product of shared operands; `work` has 512 words and is zeros afterwards.
#[unsafe(no_mangle)]
pub extern "C" fn lubewon_product_shares(
    x: &[u64],
    y: &[u64],
    res: &mut [u64],
    work: &mut [u64],
    tape: &[u64],
) -> Answer
    ensures answer { result ≡ call_answer product_plan x.now y.now res.old work.old tape.now }
    ensures res { res.new ≡ result_after product_plan x.now y.now res.old work.old tape.now }
    ensures work { work.new ≡ work_after product_plan x.now y.now res.old work.old tape.now }
    ensures holds { Masked }
    ensures words { RandomWords }
{
    Answer::from(operations::product(x, y, res, work, tape))
}

// The sum of shared operands, likewise.
#[unsafe(no_mangle)]
pub extern "C" fn lubewon_sum_shares(
    x: &[u64],
    y: &[u64],
    res: &mut [u64],
    work: &mut [u64],
    tape: &[u64],
) -> Answer
    ensures answer { result ≡ call_answer sum_plan x.now y.now res.old work.old tape.now }
    ensures res { res.new ≡ result_after sum_plan x.now y.now res.old work.old tape.now }
    ensures work { work.new ≡ work_after sum_plan x.now y.now res.old work.old tape.now }
    ensures holds { Masked }
    ensures words { RandomWords }
{
    Answer::from(operations::sum(x, y, res, work, tape))
}

// The floor of a shared operand, likewise.
#[unsafe(no_mangle)]
pub extern "C" fn lubewon_floor_shares(
    x: &[u64],
    res: &mut [u64],
    work: &mut [u64],
    tape: &[u64],
) -> Answer
    ensures answer { result ≡ call_answer floor_plan x.now (zeros_for x.now) res.old work.old tape.now }
    ensures res { res.new ≡ result_after floor_plan x.now (zeros_for x.now) res.old work.old tape.now }
    ensures work { work.new ≡ work_after floor_plan x.now (zeros_for x.now) res.old work.old tape.now }
    ensures holds { Masked }
    ensures words { RandomWords }
{
    Answer::from(operations::floor(x, res, work, tape))
}

// The truncation of a shared operand, likewise.
#[unsafe(no_mangle)]
pub extern "C" fn lubewon_truncate_shares(
    x: &[u64],
    res: &mut [u64],
    work: &mut [u64],
    tape: &[u64],
) -> Answer
    ensures answer { result ≡ call_answer truncate_plan x.now (zeros_for x.now) res.old work.old tape.now }
    ensures res { res.new ≡ result_after truncate_plan x.now (zeros_for x.now) res.old work.old tape.now }
    ensures work { work.new ≡ work_after truncate_plan x.now (zeros_for x.now) res.old work.old tape.now }
    ensures holds { Masked }
    ensures words { RandomWords }
{
    Answer::from(operations::truncate(x, res, work, tape))
}

// The whole number nearest to a shared operand, likewise.
#[unsafe(no_mangle)]
pub extern "C" fn lubewon_nearest_shares(
    x: &[u64],
    res: &mut [u64],
    work: &mut [u64],
    tape: &[u64],
) -> Answer
    ensures answer { result ≡ call_answer nearest_plan x.now (zeros_for x.now) res.old work.old tape.now }
    ensures res { res.new ≡ result_after nearest_plan x.now (zeros_for x.now) res.old work.old tape.now }
    ensures work { work.new ≡ work_after nearest_plan x.now (zeros_for x.now) res.old work.old tape.now }
    ensures holds { Masked }
    ensures words { RandomWords }
{
    Answer::from(operations::nearest(x, res, work, tape))
}
