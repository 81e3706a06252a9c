// The input bytes of `sharelist`: the share count, then plan words.
#![tactic(auto)]

ghost use Rattle.std.specs.Prelude.{◌≡◌};
ghost use Rattle.checks.specs.Answers.{answer_of};
ghost use Rattle.listing_input.specs.Input.{count_of, list_answer, plan_read};
ghost use Rattle.listing_lines.specs.Writing.{Wrote};

use checks::refusal::{Counts, Refusal};
use checks::share_count::is_share_count;
use translation::measure::measure;
use word::step_word::StepWord;

// The bytes of the longest plan.
const PLAN_BYTES: usize = 4 * StepWord::PLAN_MAX;

// The bytes of the longest input: n, and that plan.
pub const INPUT_MAX: usize = 1 + PLAN_BYTES;

// The share count: the first byte. Where there is none it is 0, as `count_of` says.
pub fn share_count(input: &[u8]) -> usize
    ensures { result ≡ count_of input.now }
{
    match input {
        [n, ..] => *n as usize,
        [] => 0,
    }
}

// The plan's words at the front of `plan`, nothing where they do not fit; the answer counts them.
pub fn plan_words(input: &[u8], plan: &mut [u32]) -> usize
    ensures { Wrote (plan_read input.now) plan.old plan.new result }
{
    let [_, bytes @ ..] = input else {
        return 0;
    };
    let (words, _) = bytes.as_chunks::<4>();
    if plan.len() < words.len() {
        return 0;
    }
    for (i, word) in words.iter().enumerate() {
        plan[i] = u32::from_le_bytes(*word);
    }
    words.len()
}

// The answer to the input: 1 where there is no byte or the share count is not 2..8, 2 where there are more than 8,193 bytes or the
// last word is broken, then as Measure has it.
#[tactic(auto, using(crate::proofs::Answered::no_byte, crate::proofs::Answered::bad_count, crate::proofs::Answered::too_long, crate::proofs::Answered::broken))]
pub fn list_answer(input: &[u8]) -> Result<Counts, Refusal>
    ensures { answer_of result ≡ list_answer input.now }
{
    let [n, bytes @ ..] = input else {
        return Err(Refusal::ShareCount);
    };
    let n = *n as usize;
    if !is_share_count(n) {
        return Err(Refusal::ShareCount);
    }
    if PLAN_BYTES < bytes.len() || bytes.len() % 4 != 0 {
        return Err(Refusal::TooLong);
    }
    let mut plan = [0u32; StepWord::PLAN_MAX];
    let count = plan_words(input, &mut plan);
    measure(n, &plan[..count])
}
