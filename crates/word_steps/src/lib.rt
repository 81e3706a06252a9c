// Taking a step word apart by the rule of plans and by that of share programs: its step, or None, the finding that it is bad. And whether it is a head.
#![tactic(auto)]

ghost use Rattle.std.specs.Prelude.{◌≡◌};
ghost use Rattle.word.specs.Encoding.{plan_step, program_step};
ghost use Rattle.word.specs.Head.{is_head};

use crate::rules::{in_plan, in_program};
use word::step::Step;
use word::step_word::StepWord;

pub mod rules;

// The step of a plan's word, or None where it is bad. Every kind has a cell d, so a d that is no register is enough for that.
#[tactic(auto, using(word::proofs::Together::no_register, word::proofs::Together::named_dest))]
pub fn plan_step(w: StepWord) -> Option<Step>
    ensures { result ≡ plan_step w.bits }
{
    if StepWord::REGISTERS <= w.d() {
        return None;
    }
    let Some(step) = w.named() else {
        return None;
    };
    if in_plan(step) { Some(step) } else { None }
}

// The step of a share program's word, or None where it is bad.
pub fn program_step(w: StepWord) -> Option<Step>
    ensures { result ≡ program_step w.bits }
{
    let Some(step) = w.named() else {
        return None;
    };
    if in_program(step) { Some(step) } else { None }
}

// Whether a word is the head of a share program for some share count.
#[tactic(auto, using(word::proofs::Head::few_no_head, word::proofs::Head::many_no_head, word::proofs::Head::head_by_word))]
pub fn is_head(w: StepWord) -> bool
    ensures { result ≡ is_head w.bits }
{
    let n = w.d();
    2 <= n && n <= 8 && w.bits == StepWord::head(n as u8)
}
