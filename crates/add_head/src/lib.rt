// Conversion of a stored share program that has no head: the head put before its words. `specs/` has the definitions that the contracts cite.
#![tactic(auto)]

ghost use Rattle.std.specs.Prelude.{◌≡◌, ◌∷◌, ◌++◌, ◌≤◌, ◌<◌, ◌+◌, length, drop};
ghost use Rattle.word.specs.Head.{head_word};
ghost use Rattle.checks.specs.Answers.{answer_of};
ghost use Rattle.add_head.specs.Conversion.{add_head_answer, add_head_out};
ghost use Rattle.add_head.specs.Converts.{Converts};

use checks::check::{ProgramRule, check};
use checks::refusal::{Counts, Refusal};
use checks::share_count::is_share_count;
use share_machine::rands::rands;
use word::step_word::StepWord;

// The answer to a stored program and the room for its conversion: the turn-downs in number order, and the counts.
#[tactic(auto, unfolding(checks::specs::Answers::program_checked))]
fn answer_for(n: usize, stored: &[u32], room: usize) -> Result<Counts, Refusal>
    ensures { answer_of result ≡ add_head_answer n stored.now room }
{
    if !is_share_count(n) {
        return Err(Refusal::ShareCount);
    }
    check::<ProgramRule>(stored)?;
    if room <= stored.len() {
        return Err(Refusal::Length);
    }
    Ok(Counts {
        words: 1 + stored.len(),
        tape: rands(stored),
    })
}

// The head for n shares, and then the stored words.
fn put_before(n: u8, stored: &[u32], out: &mut [u32])
    requires { length stored.now < length out.old }
    ensures { out.new ≡ (head_word n ∷ stored.now) ++ drop (1 + length stored.now) out.old }
{
    out[0] = StepWord::head(n);
    // One by one: copied at once, the words would need the C library's memmove.
    for i in 0..stored.len() {
        out[1 + i] = stored[i];
    }
}

// Puts the head for n shares before a stored program. Turned down with 1; 2 where there are more than 8,257,536 words; 3 at the first bad
// word, and a head is one at every place; 4 where `out` is shorter than the words and the head. Turned down, it leaves `out` as it was;
// done, it leaves `out` as it was past the program's end. Counts the words, head included, and the tape words. What holds of it is `Converts`.
pub fn add_head(n: usize, stored: &[u32], out: &mut [u32]) -> Result<Counts, Refusal>
    ensures answer { answer_of result ≡ add_head_answer n stored.now (length out.old) }
    ensures out { out.new ≡ add_head_out n stored.now out.old }
    ensures holds { Converts }
{
    let counts = answer_for(n, stored, out.len())?;
    put_before(n as u8, stored, out);
    Ok(counts)
}
