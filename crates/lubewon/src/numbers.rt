// The operations on plain words, and the copies of their plans, for C.
ghost use Rattle.std.specs.Prelude.{◌≡◌};
ghost use Rattle.binary64.specs.Product as product_spec;
ghost use Rattle.binary64.specs.Sum as sum_spec;
ghost use Rattle.binary64.specs.Floor as floor_spec;
ghost use Rattle.binary64.specs.Truncate as truncate_spec;
ghost use Rattle.binary64.specs.Nearest as nearest_spec;
ghost use Rattle.plans.specs.BuiltIns.{BuiltIns};
ghost use Rattle.plan_copy.specs.Copy.{copy_answer, copy_out};
ghost use Rattle.plans.specs.words.ProductPlan.{product_plan};
ghost use Rattle.plans.specs.words.SumPlan.{sum_plan};
ghost use Rattle.plans.specs.words.FloorPlan.{floor_plan};
ghost use Rattle.plans.specs.words.TruncatePlan.{truncate_plan};
ghost use Rattle.plans.specs.words.NearestPlan.{nearest_plan};

use checks::answer::Answer;

// The product of two words as numbers.
#[unsafe(no_mangle)]
pub extern "C" fn lubewon_product(a: u64, b: u64) -> u64
    ensures { result ≡ product_spec.product a b }
{
    binary64_plain::product(a, b)
}

// Their sum.
#[unsafe(no_mangle)]
pub extern "C" fn lubewon_sum(a: u64, b: u64) -> u64
    ensures { result ≡ sum_spec.sum a b }
{
    binary64_plain::sum(a, b)
}

// The greatest whole number not above a number, with its sign.
#[unsafe(no_mangle)]
pub extern "C" fn lubewon_floor(a: u64) -> u64
    ensures { result ≡ floor_spec.floor a }
{
    binary64_whole::floor(a)
}

// The whole part of a number, with its sign.
#[unsafe(no_mangle)]
pub extern "C" fn lubewon_truncate(a: u64) -> u64
    ensures { result ≡ truncate_spec.truncate a }
{
    binary64_whole::truncate(a)
}

// The whole number nearest to a number, a tie to the even one, with its sign.
#[unsafe(no_mangle)]
pub extern "C" fn lubewon_nearest(a: u64) -> u64
    ensures { result ≡ nearest_spec.nearest a }
{
    binary64_whole::nearest(a)
}

// Copies of the built-in plans. Their words are free by document 01; what holds of them is `BuiltIns`.
#[unsafe(no_mangle)]
pub extern "C" fn lubewon_copy_product_plan(out: &mut [u32]) -> Answer
    ensures value { (result ≡ copy_answer product_plan out.old) × (out.new ≡ copy_out product_plan out.old) }
    ensures holds { BuiltIns }
{
    Answer::from(plan_copy::copy_product(out))
}

#[unsafe(no_mangle)]
pub extern "C" fn lubewon_copy_sum_plan(out: &mut [u32]) -> Answer
    ensures value { (result ≡ copy_answer sum_plan out.old) × (out.new ≡ copy_out sum_plan out.old) }
    ensures holds { BuiltIns }
{
    Answer::from(plan_copy::copy_sum(out))
}

#[unsafe(no_mangle)]
pub extern "C" fn lubewon_copy_floor_plan(out: &mut [u32]) -> Answer
    ensures value { (result ≡ copy_answer floor_plan out.old) × (out.new ≡ copy_out floor_plan out.old) }
    ensures holds { BuiltIns }
{
    Answer::from(plan_copy::copy_floor(out))
}

#[unsafe(no_mangle)]
pub extern "C" fn lubewon_copy_truncate_plan(out: &mut [u32]) -> Answer
    ensures value { (result ≡ copy_answer truncate_plan out.old) × (out.new ≡ copy_out truncate_plan out.old) }
    ensures holds { BuiltIns }
{
    Answer::from(plan_copy::copy_truncate(out))
}

#[unsafe(no_mangle)]
pub extern "C" fn lubewon_copy_nearest_plan(out: &mut [u32]) -> Answer
    ensures value { (result ≡ copy_answer nearest_plan out.old) × (out.new ≡ copy_out nearest_plan out.old) }
    ensures holds { BuiltIns }
{
    Answer::from(plan_copy::copy_nearest(out))
}
