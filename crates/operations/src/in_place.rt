// The operations on shares that replace their first operand: each is the call of `lib` whose result slice is that operand.
ghost use Rattle.std.specs.Prelude.{◌≡◌};
ghost use Rattle.plans.specs.words.ProductPlan.{product_plan};
ghost use Rattle.plans.specs.words.SumPlan.{sum_plan};
ghost use Rattle.plans.specs.words.FloorPlan.{floor_plan};
ghost use Rattle.plans.specs.words.TruncatePlan.{truncate_plan};
ghost use Rattle.plans.specs.words.NearestPlan.{nearest_plan};
ghost use Rattle.checks.specs.Answers.{answer_of};
ghost use Rattle.operations.specs.Masked.{Masked};
ghost use Rattle.operations.specs.RandomWords.{RandomWords};
ghost use Rattle.masked_call.specs.Shares.{call_answer, result_after, work_after, zeros_for};

use checks::refusal::{Counts, Refusal};
use compiled_floor::FloorPlan;
use compiled_nearest::NearestPlan;
use compiled_product::ProductPlan;
use compiled_sum::SumPlan;
use compiled_truncate::TruncatePlan;
use masked_plan::in_place::{call, call_of_one};

// The product of shared operands x and y: its shares in x. Turned down with 1 where the shares are not 2 to 8, 4 where y or `work` has the wrong
// length, 6 where the tape is too short; all is then as it was. `work` has 512 words, zeros afterwards. What holds of it is `Masked`.
pub fn product(x: &mut [u64], y: &[u64], work: &mut [u64], tape: &[u64]) -> Result<Counts, Refusal>
    ensures answer { answer_of result ≡ call_answer product_plan x.old y.now x.old work.old tape.now }
    ensures x { x.new ≡ result_after product_plan x.old y.now x.old work.old tape.now }
    ensures work { work.new ≡ work_after product_plan x.old y.now x.old work.old tape.now }
    ensures holds { Masked }
    ensures words { RandomWords }
{
    call::<ProductPlan>(x, y, work, tape)
}

// The sum of shared operands x and y, likewise.
pub fn sum(x: &mut [u64], y: &[u64], work: &mut [u64], tape: &[u64]) -> Result<Counts, Refusal>
    ensures answer { answer_of result ≡ call_answer sum_plan x.old y.now x.old work.old tape.now }
    ensures x { x.new ≡ result_after sum_plan x.old y.now x.old work.old tape.now }
    ensures work { work.new ≡ work_after sum_plan x.old y.now x.old work.old tape.now }
    ensures holds { Masked }
    ensures words { RandomWords }
{
    call::<SumPlan>(x, y, work, tape)
}

// The floor of a shared operand x, likewise.
pub fn floor(x: &mut [u64], work: &mut [u64], tape: &[u64]) -> Result<Counts, Refusal>
    ensures answer { answer_of result ≡ call_answer floor_plan x.old (zeros_for x.old) x.old work.old tape.now }
    ensures x { x.new ≡ result_after floor_plan x.old (zeros_for x.old) x.old work.old tape.now }
    ensures work { work.new ≡ work_after floor_plan x.old (zeros_for x.old) x.old work.old tape.now }
    ensures holds { Masked }
    ensures words { RandomWords }
{
    call_of_one::<FloorPlan>(x, work, tape)
}

// The truncation of a shared operand x, likewise.
pub fn truncate(x: &mut [u64], work: &mut [u64], tape: &[u64]) -> Result<Counts, Refusal>
    ensures answer { answer_of result ≡ call_answer truncate_plan x.old (zeros_for x.old) x.old work.old tape.now }
    ensures x { x.new ≡ result_after truncate_plan x.old (zeros_for x.old) x.old work.old tape.now }
    ensures work { work.new ≡ work_after truncate_plan x.old (zeros_for x.old) x.old work.old tape.now }
    ensures holds { Masked }
    ensures words { RandomWords }
{
    call_of_one::<TruncatePlan>(x, work, tape)
}

// The whole number nearest to a shared operand x, likewise.
pub fn nearest(x: &mut [u64], work: &mut [u64], tape: &[u64]) -> Result<Counts, Refusal>
    ensures answer { answer_of result ≡ call_answer nearest_plan x.old (zeros_for x.old) x.old work.old tape.now }
    ensures x { x.new ≡ result_after nearest_plan x.old (zeros_for x.old) x.old work.old tape.now }
    ensures work { work.new ≡ work_after nearest_plan x.old (zeros_for x.old) x.old work.old tape.now }
    ensures holds { Masked }
    ensures words { RandomWords }
{
    call_of_one::<NearestPlan>(x, work, tape)
}
