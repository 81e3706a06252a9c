// What the crate of a compiled plan gives: the plan cut at its ANDs and ADDs ("gates"), each part as code, and the laws that the calls over it need.
ghost use Rattle.std.specs.Prelude.{◌≡◌, ◌≤◌, ◌<◌, Bool, List, ℕ, T, get_or, length};
ghost use Rattle.word.specs.Encoding.{kind_of, plan_step};
ghost use Rattle.masking.specs.Machine.{steps_of};
ghost use Rattle.masking.specs.Translation.{words_for};
ghost use Rattle.and_parts.specs.inner.Effects.{Enough, Ran};
ghost use Rattle.gates.specs.inner.PlanWords.{GoodPlanWord};
ghost use Rattle.compiled.specs.inner.OnShare.{on_share_all};
ghost use Rattle.masked_plan.specs.inner.PlanLaws.{PlanLaws};

pub trait CompiledPlan {
    // The plan's words, and its parts: every run of linear words but the last, the last, the words between, and the kinds of these.
    ghost plan: { List ℕ };

    ghost runs: { List (List ℕ) };

    ghost last_run: { List ℕ };

    ghost gates: { List ℕ };

    ghost kinds: { ℕ → Bool };

    ghost GATES: { ℕ };

    ghost UNITS: { ℕ };

    // What each crate proves of them.
    ghost laws: { PlanLaws kinds runs last_run gates plan GATES UNITS };

    // How many words stand between runs.
    const GATES: usize;

    // The plan's tape words, in units of n(n-1).
    const UNITS: usize;

    // Run k on share i.
    fn on_share(k: usize, i: usize, cells: &mut [u64])
        requires { (k ≤ GATES) × (i < 8) × (length cells.old ≡ 512) }
        ensures { cells.new ≡ on_share_all i (get_or runs k last_run) cells.old };

    // The word after run k.
    fn gate(k: usize) -> u32
        requires { k < GATES }
        ensures { result ≡ get_or gates k 0 };

    // Such a word's translation done on the cells, from place t of the tape on; the answer is the next place.
    fn gate_done(w: u32, n: usize, tape: &[u64], t: usize, cells: &mut [u64]) -> usize
        requires good_plan_word { GoodPlanWord w × (2 ≤ n) × (n ≤ 8) × (length cells.old ≡ 512) × T (kinds (kind_of w)) }
        requires enough { Enough tape.now t (steps_of (words_for n (plan_step w))) }
        ensures { Ran (steps_of (words_for n (plan_step w))) tape.now t cells.old cells.new result };
}
