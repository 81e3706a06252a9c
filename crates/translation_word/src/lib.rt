// The share words of a plan's word. For share 0 it is the plan's word itself, since share 0 of register r is cell r. An inner crate of Translate:
// its functions ask for room and a share count.
#![tactic(auto)]

ghost use Rattle.std.specs.Prelude.{◌≤◌, ◌<◌, ◌≡◌, length, Some};
ghost use Rattle.word.specs.declared.step.Step.TheVariants.{Add, And};
ghost use Rattle.word.specs.Encoding.{plan_step};
ghost use Rattle.masking.specs.Translation.{words_for};
ghost use Rattle.emission_rows.specs.inner.Written.{Words};
ghost use Rattle.translation_word.specs.inner.Good.{on_register};

use emission_add::adding;
use emission_and::and_block;
use emission_rows::{Cells, alone, row};
use word::step::Step;
use word::step_word::StepWord;
use word_steps::plan_step;

// What the next share's word is more: a share's cells in field d, in d and a, and in all three.
const D: u32 = (StepWord::SHARE as u32) * StepWord::NUMBERS;

const DA: u32 = D + (StepWord::SHARE as u32) * StepWord::FIELD;

const DAB: u32 = DA + (StepWord::SHARE as u32);

// Where the shares of a plan's register lie.
fn register(r: usize) -> Cells
    requires { r < 32 }
    ensures { result ≡ on_register r }
{
    Cells {
        first: r as u16,
        over: StepWord::SHARE,
    }
}

// AND's words, on registers.
fn and_word(n: u8, d: usize, a: usize, b: usize, out: &mut [u32]) -> usize
    requires d_bound { (d < 32) × ((a < 32) × (b < 32)) }
    requires n_bound { n ≤ 8 }
    requires b_in_bounds { length (words_for n (Some (And d a b))) ≤ length out.old }
    ensures { Words out.old 0 (words_for n (Some (And d a b))) out.new result }
{
    and_block(register(d), register(a), register(b), n, 0, out)
}

// ADD's words, on registers.
fn add_word(n: u8, d: usize, a: usize, b: usize, out: &mut [u32]) -> usize
    requires d_bound { (d < 32) × ((a < 32) × (b < 32)) }
    requires n_bound { n ≤ 8 }
    requires b_in_bounds { length (words_for n (Some (Add d a b))) ≤ length out.old }
    ensures { Words out.old 0 (words_for n (Some (Add d a b))) out.new result }
{
    adding(register(d), register(a), register(b), n, 0, out)
}

// Writes the share words of a plan's word at the front of what is lent; the answer is how many. A bad word has none. CONST and NOT have a
// word of their own in share 0: the others have CONST 0, and for NOT SHL 0.
pub fn plan_word(n: u8, w: u32, out: &mut [u32]) -> usize
    requires le_n { (1 ≤ n) × (n ≤ 8) }
    requires w_in_bounds { length (words_for n (plan_step w)) ≤ length out.old }
    ensures { Words out.old 0 (words_for n (plan_step w)) out.new result }
{
    let Some(step) = plan_step(StepWord::from(w)) else {
        return 0;
    };
    match step {
        Step::Const { k, .. } => alone(w, w - k + D, D, n, 0, out),
        Step::Xor { .. } => row(w, DAB, n, 0, out),
        Step::And { d, a, b } => and_word(n, d, a, b, out),
        Step::Not { .. } => alone(w, w + StepWord::KIND_UNIT + DA, DA, n, 0, out),
        Step::Shl { .. } => row(w, DA, n, 0, out),
        Step::Shr { .. } => row(w, DA, n, 0, out),
        Step::Spread { .. } => row(w, DA, n, 0, out),
        Step::Add { d, a, b } => add_word(n, d, a, b, out),
        Step::Rand { .. } => 0,
    }
}
