// Written by tools/compile_plan.py: change the plan or the compiler, not this file.
// The product's plan compiled: its parts as code (runs), for masked_plan, which does them on n shares and has the calls.
#![tactic(auto)]

ghost use Rattle.std.specs.Prelude.{eqb};
ghost use Rattle.plans.specs.words.ProductPlan.{product_plan};
ghost use Rattle.compiled_product.specs.inner.Runs as parts;
ghost use Rattle.compiled_product.specs.inner.Laws.{laws};

use gates::gates::and_done;
use masked_plan::compiled_plan::CompiledPlan;

mod runs;

pub struct ProductPlan;

impl CompiledPlan for ProductPlan {
    ghost plan = { product_plan };

    ghost runs = { parts.runs };

    ghost last_run = { parts.last_run };

    ghost gates = { parts.gates };

    ghost kinds = { (λ k. eqb k 3) };

    ghost GATES = { 76 };

    ghost UNITS = { 76 };

    ghost laws = { laws };

    const GATES: usize = 76;

    const UNITS: usize = 76;

    // These three are part of their caller in the machine code.
    #[inline(always)]
    fn on_share(k: usize, i: usize, cells: &mut [u64]) {
        runs::on_share(k, i, cells);
    }

    #[inline(always)]
    fn gate(k: usize) -> u32 {
        runs::gate(k)
    }

    #[inline(always)]
    fn gate_done(w: u32, n: usize, tape: &[u64], t: usize, cells: &mut [u64]) -> usize {
        and_done(w, n, tape, t, cells)
    }
}
