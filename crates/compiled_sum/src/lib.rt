// Written by tools/compile_plan.py: change the plan or the compiler, not this file.
// The sum's plan compiled: its parts as code (compiled_sum_runs), for masked_plan, which does them on n shares and has the calls.
#![tactic(auto)]

ghost use Rattle.std.specs.Prelude.{eqb};
ghost use Rattle.plans.specs.words.SumPlan.{sum_plan};
ghost use Rattle.compiled_sum_from_27.specs.inner.Runs as parts;
ghost use Rattle.compiled_sum.specs.inner.Laws.{laws};

use compiled_sum_runs::runs;
use gates::gates::and_done;
use masked_plan::compiled_plan::CompiledPlan;

pub struct SumPlan;

impl CompiledPlan for SumPlan {
    ghost plan = { sum_plan };

    ghost runs = { parts.runs };

    ghost last_run = { parts.last_run };

    ghost gates = { parts.gates };

    ghost kinds = { (λ k. eqb k 3) };

    ghost GATES = { 53 };

    ghost UNITS = { 53 };

    ghost laws = { laws };

    const GATES: usize = 53;

    const UNITS: usize = 53;

    // These three are part of their caller in the machine code.
    #[inline(always)]
    fn on_share(k: usize, i: usize, cells: &mut [u64]) {
        runs::on_share(k, i, cells);
    }

    #[inline(always)]
    fn gate(k: usize) -> u32 {
        runs::gate(k)
    }

    #[inline(always)]
    fn gate_done(w: u32, n: usize, tape: &[u64], t: usize, cells: &mut [u64]) -> usize {
        and_done(w, n, tape, t, cells)
    }
}
