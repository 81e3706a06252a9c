// One share step: told no count, it takes a head or a good word. masking's `specs/` has the definitions that the contracts cite.
#![tactic(auto)]

ghost use Rattle.std.specs.Prelude.{◌≡◌, ◌||◌};
ghost use Rattle.checks.specs.Answers.{answer_of};
ghost use Rattle.word.specs.Encoding.{is_good, program_step};
ghost use Rattle.word.specs.Head.{is_head};
ghost use Rattle.masking.specs.Runs.{step_answer, step_cells};

use checks::refusal::{Counts, Refusal};
use share_machine::exec::exec;
use share_run::rest::rest_answer;
use word::step_word::StepWord;
use word_steps::{is_head, program_step};

// Whether a word can be done: a head or a good word.
fn can_be_done(word: u32) -> bool
    ensures { result ≡ (is_head word || is_good (program_step word)) }
{
    if is_head(StepWord::from(word)) {
        return true;
    }
    let Some(_) = program_step(StepWord::from(word)) else {
        return false;
    };
    true
}

// The answer: 3 for a bad word, then the rest of a share run's, 4 to 6, over that word alone.
fn step_answer(word: u32, tape: &[u64], tape_place: usize, cells: &[u64]) -> Result<Counts, Refusal>
    ensures { answer_of result ≡ step_answer word tape.now cells.now tape_place }
{
    if !can_be_done(word) {
        return Err(Refusal::BadWord(0));
    }
    rest_answer(&[word], 0, tape, tape_place, 1, cells)
}

// One word of a share program on the cells, a head among them, which changes none. Turned down with 3 to 6.
pub fn one_share_step(
    word: u32,
    tape: &[u64],
    tape_place: usize,
    cells: &mut [u64],
) -> Result<Counts, Refusal>
    ensures answer { answer_of result ≡ step_answer word tape.now cells.old tape_place }
    ensures cells { cells.new ≡ step_cells word tape.now cells.old tape_place }
{
    let counts = step_answer(word, tape, tape_place, cells)?;
    exec(&[word], &tape[tape_place..], cells);
    Ok(counts)
}
