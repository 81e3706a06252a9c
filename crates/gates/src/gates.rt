// The words of a plan that join shares, AND and ADD, done on the cells. Their fields are taken apart here without tests: the caller knows that the word is
// not bad.
ghost use Rattle.std.specs.Prelude.{◌≡◌, ◌≤◌, length};
ghost use Rattle.word.specs.Encoding.{kind_of, plan_step};
ghost use Rattle.masking.specs.Translation.{words_for};
ghost use Rattle.masking.specs.Machine.{steps_of};
ghost use Rattle.and_parts.specs.inner.Effects.{Enough, Ran};
ghost use Rattle.gates.specs.inner.PlanWords.{GoodPlanWord};

use crate::add::add_shares;
use and_parts::once::Place;
use and_shares::and::and_of;
use word::step_word::StepWord;

// A register's shares.
fn register(r: u32) -> Place
    ensures { (result.base ≡ r) × (result.stride ≡ 32) }
{
    Place {
        base: r as usize,
        stride: StepWord::REGISTERS,
    }
}

// An AND word's translation done on the cells, from place t of the tape on; the answer is the next place.
pub fn and_done(w: u32, n: usize, tape: &[u64], t: usize, cells: &mut [u64]) -> usize
    requires good_plan_word { GoodPlanWord w × (2 ≤ n) × (n ≤ 8) × (length cells.old ≡ 512) × (kind_of w ≡ 3) }
    requires enough { Enough tape.now t (steps_of (words_for n (plan_step w))) }
    ensures { Ran (steps_of (words_for n (plan_step w))) tape.now t cells.old cells.new result }
{
    let d = register((w >> StepWord::D_AT) % StepWord::FIELD);
    let a = (w >> StepWord::A_AT) % StepWord::FIELD;
    let b = w % StepWord::FIELD;
    and_of::<{ StepWord::REGISTERS }>(d, a as usize, b as usize, n, tape, t, cells)
}

// An ADD word's, likewise.
pub fn add_done(w: u32, n: usize, tape: &[u64], t: usize, cells: &mut [u64]) -> usize
    requires good_plan_word { GoodPlanWord w × (2 ≤ n) × (n ≤ 8) × (length cells.old ≡ 512) × (kind_of w ≡ 8) }
    requires enough { Enough tape.now t (steps_of (words_for n (plan_step w))) }
    ensures { Ran (steps_of (words_for n (plan_step w))) tape.now t cells.old cells.new result }
{
    let d = register((w >> StepWord::D_AT) % StepWord::FIELD);
    let a = register((w >> StepWord::A_AT) % StepWord::FIELD);
    let b = register(w % StepWord::FIELD);
    add_shares(d, a, b, n, tape, t, cells)
}
