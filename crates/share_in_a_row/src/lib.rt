// Share runs in a row: the call that demand 3 speaks of, once for each count and budget of a list, each going on from the cells and places of the last.
#![tactic(auto)]

ghost use Rattle.std.specs.Prelude.{◌≡◌};
ghost use Rattle.masking.specs.Demand3.{Demand3Holds};
ghost use Rattle.masking.specs.Runs.{in_arow, runs_of, standing};

use checks::refusal::Counts;
use share_run::run::share_run;

// Where a list of runs leaves off in the program and on the tape.
#[derive(Clone, Copy)]
pub struct Places {
    pub program: usize,
    pub tape: usize,
}

// A share run for each count and budget, as many as there are of both; one that is turned down counts nothing. The cells and places afterwards
// are those of masking's `in_arow`; of a translated plan from place 0 that is what `Demand3Holds` speaks of.
pub fn runs_in_a_row(
    program: &[u32],
    place: usize,
    tape: &[u64],
    tape_place: usize,
    counts: &[usize],
    budgets: &[usize],
    cells: &mut [u64],
) -> Places
    ensures cells { cells.new ≡ (in_arow program.now tape.now (standing cells.old place tape_place) (runs_of counts.now budgets.now)).cells }
    ensures program { result.program ≡ (in_arow program.now tape.now (standing cells.old place tape_place) (runs_of counts.now budgets.now)).place }
    ensures tape { result.tape ≡ (in_arow program.now tape.now (standing cells.old place tape_place) (runs_of counts.now budgets.now)).tape_place }
    ensures holds { Demand3Holds }
{
    let mut p = place;
    let mut t = tape_place;
    // By place: over a `zip` of both slices the proof, which goes by places of `runs_of`, did not close.
    let runs = counts.len().min(budgets.len());
    for i in 0..runs {
        let ran = share_run(counts[i], program, p, tape, t, budgets[i], cells);
        let done = ran.unwrap_or(Counts::NONE);
        p += done.words;
        t += done.tape;
    }
    Places {
        program: p,
        tape: t,
    }
}
