// The check of a run's program: the reader's share count, the head, and the words behind it.
#![tactic(auto)]

ghost use Rattle.std.specs.Prelude.{◌≡◌};
ghost use Rattle.checks.specs.declared.answer.Answer.{Answer};
ghost use Rattle.checks.specs.Answers.{after_check};
ghost use Rattle.checks_run.specs.RunCheck.{run_checked};

use checks::check::{ProgramRule, first_bad};
use checks::refusal::Refusal;
use checks::share_count::is_share_count;
use word::step_word::StepWord;

// 1 where the reader's count is not 2..8, 2 where the program is too long, 8 where there is no first word or it is not the head with that count, 3 at
// the first bad word behind it.
#[tactic(auto, unfolding(crate::specs::RunCheck::run_checked))]
pub fn check_run(n: usize, program: &[u32]) -> Result<(), Refusal>
    ensures { (next : Answer) → after_check result next ≡ run_checked n program.now next }
{
    if !is_share_count(n) {
        return Err(Refusal::ShareCount);
    }
    if StepWord::HEADED_MAX < program.len() {
        return Err(Refusal::TooLong);
    }
    let Some((head, words)) = program.split_first() else {
        return Err(Refusal::Head);
    };
    if *head != StepWord::head(n as u8) {
        return Err(Refusal::Head);
    }
    let bad = first_bad::<ProgramRule>(words);
    if bad < words.len() {
        return Err(Refusal::BadWord(1 + bad));
    }
    Ok(())
}
