// Share run.
ghost use Rattle.std.specs.Prelude.{◌≡◌};
ghost use Rattle.checks.specs.Answers.{answer_of};
ghost use Rattle.masking.specs.Demand3.{Demand3Holds};
ghost use Rattle.masking.specs.Runs.{run_answer, run_cells, standing, told};

use crate::rest::rest_answer;
use checks::refusal::{Counts, Refusal};
use checks_run::check_run;
use share_machine::exec::exec;

// The answer of a share run: the check of its program, then the rest.
fn run_answer(
    n: usize,
    program: &[u32],
    place: usize,
    tape: &[u64],
    tape_place: usize,
    budget: usize,
    cells: &[u64],
) -> Result<Counts, Refusal>
    ensures { answer_of result ≡ run_answer program.now tape.now (standing cells.now place tape_place) (told n budget) }
{
    check_run(n, program)?;
    rest_answer(program, place, tape, tape_place, budget, cells)
}

// For a reader that keeps n shares: does the smaller of `budget` and the words left, from `place` in the program and `tape_place` on the
// tape, and reports words done and tape words used. Turned down with 1, 2, 8 and 3 to 6, in this order; the cells are then as they
// were. The whole program is checked first. What holds of such runs of a translated plan is `Demand3Holds`.
// The places stand beside their slices, one by one, as the call of the C interface gives them.
pub fn share_run(
    n: usize,
    program: &[u32],
    place: usize,
    tape: &[u64],
    tape_place: usize,
    budget: usize,
    cells: &mut [u64],
) -> Result<Counts, Refusal>
    ensures answer { answer_of result ≡ run_answer program.now tape.now (standing cells.old place tape_place) (told n budget) }
    ensures cells { cells.new ≡ run_cells program.now tape.now (standing cells.old place tape_place) (told n budget) }
    ensures holds { Demand3Holds }
{
    let counts = run_answer(n, program, place, tape, tape_place, budget, cells)?;
    let end = place + counts.words;
    exec(&program[place..end], &tape[tape_place..], cells);
    Ok(counts)
}
