// Product and sum of numbers in slots, without check: the calls of which the complex product and a layer consist. They differ in the plan that is run.
#![tactic(auto)]

ghost use Rattle.std.specs.Prelude.{◌≡◌, [], ◌∷◌, ◌≤◌, T, length};
ghost use Rattle.masking.specs.Machine.{steps_of};
ghost use Rattle.masking.specs.Translation.{program};
ghost use Rattle.checks.specs.Unset.{known_after, member_of, reads_only};
ghost use Rattle.and_parts.specs.inner.Effects.{Enough, Ran};
ghost use Rattle.binary64.specs.Operations.{Operation, Product, Sum};
ghost use Rattle.plans.specs.BuiltIns.{plan_of};
ghost use Rattle.compiled_product.specs.inner.Laws as product_laws;
ghost use Rattle.compiled_sum.specs.inner.Laws as sum_laws;
ghost use Rattle.fft_calls.specs.inner.Inner.{CallDone, CallReady};

use compiled_product::ProductPlan;
use compiled_sum::SumPlan;
use fft_copies::copy_within;
use fft_slots::{SLOTS, Slot, operands};
use masked_plan::run::done;
use word::step_word::StepWord;

// An operation of two operands whose plan is compiled.
pub trait CompiledOperation {
    ghost operation: { Operation };

    // Its plan's words in order, from place `start` of the tape on; the answer is the next place.
    fn done(n: usize, tape: &[u64], start: usize, cells: &mut [u64]) -> usize
        requires le_n { (2 ≤ n) × (n ≤ 8) × (length cells.old ≡ 512) }
        requires enough { Enough tape.now start (steps_of (program n (plan_of operation))) }
        ensures { Ran (steps_of (program n (plan_of operation))) tape.now start cells.old cells.new result };

    // It reads no register but the operands' before it is written, and writes register 2.
    ghost reads: { T (reads_only (plan_of operation) (0 ∷ 1 ∷ [])) };

    ghost writes: { T (member_of (known_after (plan_of operation) (0 ∷ 1 ∷ [])) 2) };
}

pub struct Multiply;

impl CompiledOperation for Multiply {
    ghost operation = { Product };

    ghost reads = { product_laws.reads };

    ghost writes = { product_laws.writes };

    fn done(n: usize, tape: &[u64], start: usize, cells: &mut [u64]) -> usize {
        done::<ProductPlan>(n, tape, start, cells)
    }
}

pub struct Add;

impl CompiledOperation for Add {
    ghost operation = { Sum };

    ghost reads = { sum_laws.reads };

    ghost writes = { sum_laws.writes };

    fn done(n: usize, tape: &[u64], start: usize, cells: &mut [u64]) -> usize {
        done::<SumPlan>(n, tape, start, cells)
    }
}

// The operation on the numbers in slots a and b, into slot `to`, over the tape from `start` on; the answer is the next place.
pub fn call<O: CompiledOperation>(
    n: usize,
    to: Slot,
    a: Slot,
    b: Slot,
    tape: &[u64],
    start: usize,
    work: &mut [u64],
) -> usize
    requires { CallReady O.operation n start tape.now work.old }
    ensures { CallDone O.operation n to a b start tape.now work.old result work.new }
{
    operands(n, a, b, work);
    let next = O::done(n, tape, start, work);
    copy_within(n, 2, StepWord::REGISTERS, to.cell(), SLOTS, work);
    next
}
