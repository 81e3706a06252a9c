// Checking a list of words by a rule, that of plans or that of share programs: the search for its first bad word, and the check that every call on a plan
// goes by, and that on a stored share program, which has no head. A run's program is searched by it too (checks_run).
ghost use Rattle.std.specs.Prelude.{◌≡◌, ℕ, List, Option};
ghost use Rattle.word.specs.declared.step.Step.{Step};
ghost use Rattle.word.specs.Encoding as word_spec;
ghost use Rattle.word.specs.Layout as layout;
ghost use Rattle.checks.specs.declared.answer.Answer.{Answer};
ghost use Rattle.checks.specs.Answers as spec;

use crate::reader::{advance, at, next_word};
use crate::refusal::Refusal;
use word::step::Step;
use word::step_word::StepWord;
use word_steps::{plan_step, program_step};

// What a list of words has to be: how long it may be, and which words are good.
pub trait Rule {
    ghost taken: { ℕ → Option Step };

    ghost MOST: { ℕ };

    // The words that it has at most.
    const MOST: usize;

    // The step of a word, or None where the rule has it for bad.
    fn step(w: StepWord) -> Option<Step>
        ensures { result ≡ taken w.bits };
}

// That of plans.
pub struct PlanRule;

impl Rule for PlanRule {
    ghost taken = { word_spec.plan_step };

    ghost MOST = { layout.plan_max };

    const MOST: usize = StepWord::PLAN_MAX;

    fn step(w: StepWord) -> Option<Step> {
        plan_step(w)
    }
}

// That of share programs, for the words behind a head.
pub struct ProgramRule;

impl Rule for ProgramRule {
    ghost taken = { word_spec.program_step };

    ghost MOST = { layout.program_max };

    const MOST: usize = StepWord::PROGRAM_MAX;

    fn step(w: StepWord) -> Option<Step> {
        program_step(w)
    }
}

// Whether what a reader found is a good word: the end, and a bad word, are answered first.
pub fn is_good<R: Rule>(found: Option<u32>) -> bool
    ensures { result ≡ spec.good_read R.taken found }
{
    let Some(w) = found else {
        return false;
    };
    let Some(_) = R::step(StepWord::from(w)) else {
        return false;
    };
    true
}

// The place of the first bad word, or the end where no word is bad: the reader stands there when the search ends.
pub fn first_bad<R: Rule>(words: &[u32]) -> usize
    ensures { result ≡ spec.first_bad R.taken words.now }
{
    let mut reader = at(words, 0);
    loop {
        if !is_good::<R>(next_word(reader)) {
            break reader.next;
        }
        reader = advance(reader);
    }
}

// 2 where there are too many words, 3 at the first bad one.
pub fn check<R: Rule>(words: &[u32]) -> Result<(), Refusal>
    ensures { (next : Answer) → spec.after_check result next ≡ spec.checked R.MOST R.taken words.now next }
{
    if R::MOST < words.len() {
        return Err(Refusal::TooLong);
    }
    let bad = first_bad::<R>(words);
    if bad < words.len() {
        return Err(Refusal::BadWord(bad));
    }
    Ok(())
}
