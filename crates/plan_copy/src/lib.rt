// The words of the built-in plans, in constant tables but for the product's rows, and the calls that copy them out. `plans` has the plans as steps, and what
// they compute.
#![tactic(auto)]

pub mod copy;
pub mod floor_table;
pub mod nearest_table;
pub mod product_rows;
pub mod sum_table;
pub mod truncate_table;

ghost use Rattle.std.specs.Prelude.{◌≡◌};
ghost use Rattle.checks.specs.Answers.{answer_of};
ghost use Rattle.plans.specs.BuiltIns.{BuiltIns};
ghost use Rattle.plan_copy.specs.Copy.{copy_answer, copy_out};
ghost use Rattle.plans.specs.words.ProductPlan.{product_plan};
ghost use Rattle.plans.specs.words.SumPlan.{sum_plan};
ghost use Rattle.plans.specs.words.FloorPlan.{floor_plan};
ghost use Rattle.plans.specs.words.TruncatePlan.{truncate_plan};
ghost use Rattle.plans.specs.words.NearestPlan.{nearest_plan};

use checks::refusal::{Counts, Refusal};
use copy::copy;
use floor_table::Floor;
use nearest_table::Nearest;
use product_rows::Product;
use sum_table::Sum;
use truncate_table::Truncate;

// The plans' words are free by document 01; what holds of them is `BuiltIns`, which each copy's contract repeats.

// Copies the product's plan to the front of `out`.
pub fn copy_product(out: &mut [u32]) -> Result<Counts, Refusal>
    ensures value { (answer_of result ≡ copy_answer product_plan out.old) × (out.new ≡ copy_out product_plan out.old) }
    ensures holds { BuiltIns }
{
    copy::<Product>(out)
}

// Copies the sum's plan to the front of `out`.
pub fn copy_sum(out: &mut [u32]) -> Result<Counts, Refusal>
    ensures value { (answer_of result ≡ copy_answer sum_plan out.old) × (out.new ≡ copy_out sum_plan out.old) }
    ensures holds { BuiltIns }
{
    copy::<Sum>(out)
}

// Copies floor's plan to the front of `out`.
pub fn copy_floor(out: &mut [u32]) -> Result<Counts, Refusal>
    ensures value { (answer_of result ≡ copy_answer floor_plan out.old) × (out.new ≡ copy_out floor_plan out.old) }
    ensures holds { BuiltIns }
{
    copy::<Floor>(out)
}

// Copies truncation's plan to the front of `out`.
pub fn copy_truncate(out: &mut [u32]) -> Result<Counts, Refusal>
    ensures value { (answer_of result ≡ copy_answer truncate_plan out.old) × (out.new ≡ copy_out truncate_plan out.old) }
    ensures holds { BuiltIns }
{
    copy::<Truncate>(out)
}

// Copies nearest's plan to the front of `out`.
pub fn copy_nearest(out: &mut [u32]) -> Result<Counts, Refusal>
    ensures value { (answer_of result ≡ copy_answer nearest_plan out.old) × (out.new ≡ copy_out nearest_plan out.old) }
    ensures holds { BuiltIns }
{
    copy::<Nearest>(out)
}
