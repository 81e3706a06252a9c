// The plain machine: runs a plan on 32 unsplit cells. `specs/` has the machine and the call's contract.
#![tactic(auto)]

ghost use Rattle.std.specs.Prelude.{◌≡◌, length};
ghost use Rattle.word.specs.Encoding.{plan_step};
ghost use Rattle.checks.specs.Answers.{answer_of};
ghost use Rattle.plain.specs.Machine as machine;
ghost use Rattle.plain.specs.Call.{plain_answer, plain_cells};

use checks::check::{PlanRule, check};
use checks::refusal::{Counts, Refusal};
use plain_table::{becomes, dest, write};
use word::step::Step;
use word::step_word::StepWord;
use word_steps::plan_step;

// One step: cell d becomes what the table says.
#[tactic(auto, unfolding(crate::specs::Machine::stepped))]
fn stepped(s: Step, cells: &mut [u64])
    ensures { cells.new ≡ machine.stepped s cells.old }
{
    let v = becomes(s, cells, 0);
    write(cells, dest(s), v);
}

// One word: a bad one does nothing.
fn word_done(w: u32, cells: &mut [u64])
    ensures { cells.new ≡ machine.after (plan_step w) cells.old }
{
    let Some(s) = plan_step(StepWord::from(w)) else {
        return;
    };
    stepped(s, cells);
}

// The plan's words in order.
fn words_done(plan: &[u32], cells: &mut [u64])
    ensures { cells.new ≡ machine.run plan.now cells.old }
{
    for w in plan {
        word_done(*w, cells);
    }
}

// The answer to a plan and a number of cells: the turn-downs in number order.
#[tactic(auto, unfolding(crate::specs::Call::plain_answer, checks::specs::Answers::plan_checked))]
fn plain_answer(plan: &[u32], cells: usize) -> Result<Counts, Refusal>
    ensures { answer_of result ≡ plain_answer plan.now cells }
{
    check::<PlanRule>(plan)?;
    if cells != StepWord::REGISTERS {
        return Err(Refusal::Length);
    }
    Ok(Counts::NONE)
}

// Runs a plan on exactly 32 cells. Turned down with 2 where the plan is longer than 2,048 words, 3 at its first bad word, 4 where the
// cells are not 32; the cells are then as they were.
pub fn plain_run(plan: &[u32], cells: &mut [u64]) -> Result<Counts, Refusal>
    ensures answer { answer_of result ≡ plain_answer plan.now (length cells.old) }
    ensures cells { cells.new ≡ plain_cells plan.now cells.old }
{
    let counts = plain_answer(plan, cells.len())?;
    words_done(plan, cells);
    Ok(counts)
}
