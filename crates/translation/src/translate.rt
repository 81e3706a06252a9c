// Translate: writes a plan's share program, its head and then the words of each plan word.
ghost use Rattle.std.specs.Prelude.{◌≡◌, ◌++◌, ◌+◌, ◌≤◌, length, drop};
ghost use Rattle.checks.specs.Answers.{answer_of};
ghost use Rattle.masking.specs.Foretold.{Accepted, foretold_words};
ghost use Rattle.masking.specs.Translation.{headed};
ghost use Rattle.translation.specs.Calls.{translate_answer, translate_out};
ghost use Rattle.translation.specs.Tied.{TranslateTied};

use crate::measure::measure;
use checks::refusal::{Counts, Refusal};
use translation_word::plan_word;
use word::step_word::StepWord;

// Writes the head, and the words of each plan word where the last one's ended. The answer was given before, so that no word is bad.
fn translate_words(n: u8, plan: &[u32], out: &mut [u32])
    requires accepted { Accepted n plan.now }
    requires plan_in_bounds { 1 + foretold_words n plan.now ≤ length out.old }
    ensures { out.new ≡ headed n plan.now ++ drop (length (headed n plan.now)) out.old }
{
    out[0] = StepWord::head(n);
    let mut at = 1;
    for w in plan {
        at += plan_word(n, *w, &mut out[at..]);
    }
}

// Measure's answer, or 4 where the output is shorter than measured.
fn translate_answer(n: usize, plan: &[u32], room: usize) -> Result<Counts, Refusal>
    ensures { answer_of result ≡ translate_answer n plan.now room }
{
    let measured = measure(n, plan)?;
    if room < measured.words {
        return Err(Refusal::Length);
    }
    Ok(measured)
}

// Turned down as Measure is, and with 4 where the output is shorter than measured; the output is then as it was. Output past the
// program's end stays as it was. What ties the words written to demand 3 is `TranslateTied`.
pub fn translate(n: usize, plan: &[u32], out: &mut [u32]) -> Result<Counts, Refusal>
    ensures answer { answer_of result ≡ translate_answer n plan.now (length out.old) }
    ensures out { out.new ≡ translate_out n plan.now out.old }
    ensures holds { TranslateTied }
{
    let counts = translate_answer(n, plan, out.len())?;
    translate_words(n as u8, plan, out);
    Ok(counts)
}
