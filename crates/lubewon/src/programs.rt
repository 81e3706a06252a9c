// Measure, Translate and the conversion of stored programs for C.
ghost use Rattle.std.specs.Prelude.{◌≡◌, length};
ghost use Rattle.add_head.specs.Conversion.{add_head_answer, add_head_out};
ghost use Rattle.add_head.specs.Converts.{Converts};
ghost use Rattle.translation.specs.Calls.{measure_answer, translate_answer, translate_out};
ghost use Rattle.translation.specs.Tied.{TranslateTied};

use checks::answer::Answer;

// Counts the share words and tape words of a plan for n shares.
#[unsafe(no_mangle)]
pub extern "C" fn lubewon_measure(n: usize, plan: &[u32]) -> Answer
    ensures { result ≡ measure_answer n plan.now }
{
    Answer::from(translation::measure::measure(n, plan))
}

// Writes the share program of a plan for n shares to the front of `out`. What ties its words to demand 3 is `TranslateTied`.
#[unsafe(no_mangle)]
pub extern "C" fn lubewon_translate(n: usize, plan: &[u32], out: &mut [u32]) -> Answer
    ensures answer { result ≡ translate_answer n plan.now (length out.old) }
    ensures out { out.new ≡ translate_out n plan.now out.old }
    ensures holds { TranslateTied }
{
    Answer::from(translation::translate::translate(n, plan, out))
}

// Puts the head for n shares before a stored program that has none. What holds of it is `Converts`.
#[unsafe(no_mangle)]
pub extern "C" fn lubewon_add_head(n: usize, stored: &[u32], out: &mut [u32]) -> Answer
    ensures answer { result ≡ add_head_answer n stored.now (length out.old) }
    ensures out { out.new ≡ add_head_out n stored.now out.old }
    ensures holds { Converts }
{
    Answer::from(add_head::add_head(n, stored, out))
}
