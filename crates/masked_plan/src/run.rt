// A compiled plan done on n shares.
ghost use Rattle.std.specs.Prelude.{◌≡◌, ◌≤◌, get_or, length};
ghost use Rattle.masking.specs.Machine.{steps_of};
ghost use Rattle.masking.specs.Translation.{program, shares};
ghost use Rattle.and_parts.specs.inner.Effects.{Enough, Ran};
ghost use Rattle.compiled.specs.inner.OnShare.{share_by_share};

use crate::compiled_plan::CompiledPlan;

// Run k on each of n shares. Part of its caller in the machine code, where other words come between those of two shares.
#[inline(always)]
fn run<P: CompiledPlan>(k: usize, n: usize, cells: &mut [u64])
    requires { (k ≤ P.GATES) × (n ≤ 8) × (length cells.old ≡ 512) }
    ensures { cells.new ≡ share_by_share (shares n) (get_or P.runs k P.last_run) cells.old }
{
    for i in 0..n {
        P::on_share(k, i, cells);
    }
}

// The plan's words in order, from place `start` of the tape on; the answer is the next place. No `for`: the last run has no word after it, so that one would
// ask for k twice in each turn, or have the code of a run twice.
pub fn done<P: CompiledPlan>(n: usize, tape: &[u64], start: usize, cells: &mut [u64]) -> usize
    requires le_n { (2 ≤ n) × (n ≤ 8) × (length cells.old ≡ 512) }
    requires enough { Enough tape.now start (steps_of (program n P.plan)) }
    ensures { Ran (steps_of (program n P.plan)) tape.now start cells.old cells.new result }
{
    let mut t = start;
    let mut k = 0;
    loop {
        run::<P>(k, n, cells);
        if k == P::GATES {
            return t;
        }
        t = P::gate_done(P::gate(k), n, tape, t, cells);
        k += 1;
    }
}
