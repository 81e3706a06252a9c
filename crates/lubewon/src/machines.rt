// Plain run, share run and one share step for C.
ghost use Rattle.std.specs.Prelude.{◌≡◌, length};
ghost use Rattle.plain.specs.Call.{plain_answer, plain_cells};
ghost use Rattle.masking.specs.Demand3.{Demand3Holds};
ghost use Rattle.masking.specs.Runs.{run_answer, run_cells, standing, step_answer, step_cells, told};

use checks::answer::Answer;

// Runs a plan on 32 plain cells.
#[unsafe(no_mangle)]
pub extern "C" fn lubewon_plain_run(plan: &[u32], cells: &mut [u64]) -> Answer
    ensures answer { result ≡ plain_answer plan.now (length cells.old) }
    ensures cells { cells.new ≡ plain_cells plan.now cells.old }
{
    Answer::from(plain::plain_run(plan, cells))
}

// Runs, for a reader that keeps n shares, the smaller of `budget` and the words left of a share program, from the places given. What holds of
// such runs of a translated plan is `Demand3Holds`.
#[unsafe(no_mangle)]
pub extern "C" fn lubewon_share_run(
    n: usize,
    program: &[u32],
    place: usize,
    tape: &[u64],
    tape_place: usize,
    budget: usize,
    cells: &mut [u64],
) -> Answer
    ensures answer { result ≡ run_answer program.now tape.now (standing cells.old place tape_place) (told n budget) }
    ensures cells { cells.new ≡ run_cells program.now tape.now (standing cells.old place tape_place) (told n budget) }
    ensures holds { Demand3Holds }
{
    Answer::from(share_run::run::share_run(n, program, place, tape, tape_place, budget, cells))
}

// Runs a single word of a share program, a head among them.
#[unsafe(no_mangle)]
pub extern "C" fn lubewon_one_share_step(
    word: u32,
    tape: &[u64],
    tape_place: usize,
    cells: &mut [u64],
) -> Answer
    ensures answer { result ≡ step_answer word tape.now cells.old tape_place }
    ensures cells { cells.new ≡ step_cells word tape.now cells.old tape_place }
{
    Answer::from(share_step::one_share_step(word, tape, tape_place, cells))
}
