// The operations on shares for C that replace their first operand. What holds of them is `Masked`; how many tape words they report, `RandomWords`.
ghost use Rattle.std.specs.Prelude.{◌≡◌};
ghost use Rattle.plans.specs.words.ProductPlan.{product_plan};
ghost use Rattle.plans.specs.words.SumPlan.{sum_plan};
ghost use Rattle.plans.specs.words.FloorPlan.{floor_plan};
ghost use Rattle.plans.specs.words.TruncatePlan.{truncate_plan};
ghost use Rattle.plans.specs.words.NearestPlan.{nearest_plan};
ghost use Rattle.operations.specs.Masked.{Masked};
ghost use Rattle.operations.specs.RandomWords.{RandomWords};
ghost use Rattle.masked_call.specs.Shares.{call_answer, result_after, work_after, zeros_for};

use checks::answer::Answer;

// The product of shared operands in place of the first; `work` has 512 words and is zeros afterwards.
#[unsafe(no_mangle)]
pub extern "C" fn lubewon_product_in_place(
    x: &mut [u64],
    y: &[u64],
    work: &mut [u64],
    tape: &[u64],
) -> Answer
    ensures answer { result ≡ call_answer product_plan x.old y.now x.old work.old tape.now }
    ensures x { x.new ≡ result_after product_plan x.old y.now x.old work.old tape.now }
    ensures work { work.new ≡ work_after product_plan x.old y.now x.old work.old tape.now }
    ensures holds { Masked }
    ensures words { RandomWords }
{
    Answer::from(operations::in_place::product(x, y, work, tape))
}

// The sum of shared operands, likewise.
#[unsafe(no_mangle)]
pub extern "C" fn lubewon_sum_in_place(
    x: &mut [u64],
    y: &[u64],
    work: &mut [u64],
    tape: &[u64],
) -> Answer
    ensures answer { result ≡ call_answer sum_plan x.old y.now x.old work.old tape.now }
    ensures x { x.new ≡ result_after sum_plan x.old y.now x.old work.old tape.now }
    ensures work { work.new ≡ work_after sum_plan x.old y.now x.old work.old tape.now }
    ensures holds { Masked }
    ensures words { RandomWords }
{
    Answer::from(operations::in_place::sum(x, y, work, tape))
}

// The floor of a shared operand, likewise.
#[unsafe(no_mangle)]
pub extern "C" fn lubewon_floor_in_place(x: &mut [u64], work: &mut [u64], tape: &[u64]) -> Answer
    ensures answer { result ≡ call_answer floor_plan x.old (zeros_for x.old) x.old work.old tape.now }
    ensures x { x.new ≡ result_after floor_plan x.old (zeros_for x.old) x.old work.old tape.now }
    ensures work { work.new ≡ work_after floor_plan x.old (zeros_for x.old) x.old work.old tape.now }
    ensures holds { Masked }
    ensures words { RandomWords }
{
    Answer::from(operations::in_place::floor(x, work, tape))
}

// The truncation of a shared operand, likewise.
#[unsafe(no_mangle)]
pub extern "C" fn lubewon_truncate_in_place(x: &mut [u64], work: &mut [u64], tape: &[u64]) -> Answer
    ensures answer { result ≡ call_answer truncate_plan x.old (zeros_for x.old) x.old work.old tape.now }
    ensures x { x.new ≡ result_after truncate_plan x.old (zeros_for x.old) x.old work.old tape.now }
    ensures work { work.new ≡ work_after truncate_plan x.old (zeros_for x.old) x.old work.old tape.now }
    ensures holds { Masked }
    ensures words { RandomWords }
{
    Answer::from(operations::in_place::truncate(x, work, tape))
}

// The whole number nearest to a shared operand, likewise.
#[unsafe(no_mangle)]
pub extern "C" fn lubewon_nearest_in_place(x: &mut [u64], work: &mut [u64], tape: &[u64]) -> Answer
    ensures answer { result ≡ call_answer nearest_plan x.old (zeros_for x.old) x.old work.old tape.now }
    ensures x { x.new ≡ result_after nearest_plan x.old (zeros_for x.old) x.old work.old tape.now }
    ensures work { work.new ≡ work_after nearest_plan x.old (zeros_for x.old) x.old work.old tape.now }
    ensures holds { Masked }
    ensures words { RandomWords }
{
    Answer::from(operations::in_place::nearest(x, work, tape))
}
