// Measure: the share words and tape words of a plan.
ghost use Rattle.std.specs.Prelude.{◌≡◌, ◌≤◌, length};
ghost use Rattle.checks.specs.Answers.{answer_of, done};
ghost use Rattle.translation.specs.Calls.{measure_answer, measured};

use checks::check::{PlanRule, check};
use checks::refusal::{Counts, Refusal};
use checks::share_count::is_share_count;
use word::step_word::StepWord;

// The sums over the plan's words, and the head beside: every word gives a share word for each share and takes no tape, but AND and ADD give and take
// more.
fn counted(n: u8, plan: &[u32]) -> Counts
    requires le_n { (1 ≤ n) × (n ≤ 8) }
    requires plan_len_bound { length plan.now ≤ 2048 }
    ensures { done result.words result.tape ≡ measured n plan.now }
{
    let each = n as usize;
    let and_more = StepWord::length(StepWord::AND, n) - each;
    let add_more = StepWord::length(StepWord::ADD, n) - each;
    let and_tape = StepWord::tape(StepWord::AND, n);
    let add_tape = StepWord::tape(StepWord::ADD, n);
    let mut words = 1 + each * plan.len();
    let mut tape = 0;
    for w in plan {
        let kind = *w >> StepWord::KIND_AT;
        if kind == StepWord::AND {
            words += and_more;
            tape += and_tape;
        }
        if kind == StepWord::ADD {
            words += add_more;
            tape += add_tape;
        }
    }
    Counts { words, tape }
}

// Turned down with 1 where the share count is not 2..8, 2 where the plan is longer than 2,048 words, 3 at its first bad word.
#[tactic(auto, unfolding(crate::specs::Calls::plan_for, checks::specs::Answers::plan_checked))]
pub fn measure(n: usize, plan: &[u32]) -> Result<Counts, Refusal>
    ensures { answer_of result ≡ measure_answer n plan.now }
{
    if !is_share_count(n) {
        return Err(Refusal::ShareCount);
    }
    check::<PlanRule>(plan)?;
    Ok(counted(n as u8, plan))
}
