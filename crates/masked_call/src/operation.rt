// The answer of a call over any plan, by the plan's tape words.
ghost use Rattle.std.specs.Prelude.{◌≡◌, ◌-◌, ◌*◌, ◌≤◌};
ghost use Rattle.word.specs.Layout.{plan_max};
ghost use Rattle.checks.specs.Answers.{answer_of};
ghost use Rattle.masked_call.specs.Shares.{answer_for};

use checks::refusal::{Counts, Refusal};
use checks::share_count::is_share_count;
use word::step_word::StepWord;

// The answer, with the plan's tape words as units of n(n-1): the turn-downs in number order.
#[tactic(auto, using(word::proofs::Small::share_range, crate::proofs::Tape::pairs_most, crate::proofs::Tape::tape_most), unfolding(crate::specs::Shares::answer_for))]
pub fn operation_answer(
    units: usize,
    n: usize,
    other: usize,
    res: usize,
    work: usize,
    tape: usize,
) -> Result<Counts, Refusal>
    requires { units ≤ 12 * plan_max }
    ensures { answer_of result ≡ answer_for (units * (n * (n - 1))) n other res work tape }
{
    if !is_share_count(n) {
        return Err(Refusal::ShareCount);
    }
    if other != n || res != n || work != StepWord::CELLS {
        return Err(Refusal::Length);
    }
    let needed = units * (n * (n - 1));
    if tape < needed {
        return Err(Refusal::Tape);
    }
    Ok(Counts {
        words: 0,
        tape: needed,
    })
}
