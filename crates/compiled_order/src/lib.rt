// Written by tools/compile_plan.py: change the plan or the compiler, not this file.
// The plan of the larger number compiled: its parts as code (runs), for masked_plan, which does them on n shares and has the calls.
#![tactic(auto)]

ghost use Rattle.gates.specs.inner.PlanWords.{is_gate};
ghost use Rattle.compiled_order.specs.Plan.{order_plan};
ghost use Rattle.compiled_order.specs.inner.Runs as parts;
ghost use Rattle.compiled_order.specs.inner.Laws.{laws};

use gates::gates::{add_done, and_done};
use masked_plan::compiled_plan::CompiledPlan;
use word::step_word::StepWord;

mod runs;

pub struct OrderPlan;

impl CompiledPlan for OrderPlan {
    ghost plan = { order_plan };

    ghost runs = { parts.runs };

    ghost last_run = { parts.last_run };

    ghost gates = { parts.gates };

    ghost kinds = { is_gate };

    ghost GATES = { 3 };

    ghost UNITS = { 25 };

    ghost laws = { laws };

    const GATES: usize = 3;

    const UNITS: usize = 25;

    // These three are part of their caller in the machine code.
    #[inline(always)]
    fn on_share(k: usize, i: usize, cells: &mut [u64]) {
        runs::on_share(k, i, cells);
    }

    #[inline(always)]
    fn gate(k: usize) -> u32 {
        runs::gate(k)
    }

    #[inline(always)]
    fn gate_done(w: u32, n: usize, tape: &[u64], t: usize, cells: &mut [u64]) -> usize {
        if w >> StepWord::KIND_AT == StepWord::AND {
            return and_done(w, n, tape, t, cells);
        }
        add_done(w, n, tape, t, cells)
    }
}
