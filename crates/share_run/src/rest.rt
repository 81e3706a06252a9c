// The rest of a share run's answer, behind the check of its program: one share step goes by it too.
ghost use Rattle.std.specs.Prelude.{◌≡◌};
ghost use Rattle.checks.specs.Answers.{answer_of};
ghost use Rattle.masking.specs.Runs.{run_rest, standing};
ghost use Rattle.share_machine.specs.inner.Good.{RandsGood};

use checks::refusal::{Counts, Refusal};
use share_machine::rands::rands;
use word::step_word::StepWord;

// The rest of a share run's answer, behind the check of its program: the turn-downs from 4 on in number order, and the counts.
pub fn rest_answer(
    program: &[u32],
    place: usize,
    tape: &[u64],
    tape_place: usize,
    budget: usize,
    cells: &[u64],
) -> Result<Counts, Refusal>
    requires { RandsGood program.now }
    ensures { answer_of result ≡ run_rest program.now tape.now (standing cells.now place tape_place) budget }
{
    if cells.len() != StepWord::CELLS {
        return Err(Refusal::Length);
    }
    if program.len() < place || tape.len() < tape_place {
        return Err(Refusal::Place);
    }
    let words = budget.min(program.len() - place);
    let end = place + words;
    let used = rands(&program[place..end]);
    if tape.len() - tape_place < used {
        return Err(Refusal::Tape);
    }
    Ok(Counts { words, tape: used })
}
