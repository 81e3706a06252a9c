// A word's parts: the step that a kind with its fields names, and the word put together from them.
ghost use Rattle.std.specs.Prelude.{◌≡◌, ◌<◌};
ghost use Rattle.word.specs.Encoding as spec;

use crate::step::Step;
use crate::step_word::StepWord;

// What kind `k` with fields d, a and b means.
#[tactic(auto, unfolding(crate::specs::Encoding::row))]
pub fn row(k: u32, d: usize, a: usize, b: usize) -> Option<Step>
    requires { (a < 512) × (b < 512) }
    ensures { result ≡ spec.row k d a b }
{
    match (k, a, b) {
        (StepWord::CONST, _, _) => Some(Step::Const {
            d,
            k: StepWord::FIELD * (a as u32) + (b as u32),
        }),
        (StepWord::XOR, _, _) => Some(Step::Xor { d, a, b }),
        (StepWord::AND, _, _) => Some(Step::And { d, a, b }),
        (StepWord::NOT, _, 0) => Some(Step::Not { d, a }),
        (StepWord::SHL, _, _) => Some(Step::Shl { d, a, b: b as u32 }),
        (StepWord::SHR, _, _) => Some(Step::Shr { d, a, b: b as u32 }),
        (StepWord::SPREAD, _, 0) => Some(Step::Spread { d, a }),
        (StepWord::ADD, _, _) => Some(Step::Add { d, a, b }),
        (StepWord::RAND, 0, 0) => Some(Step::Rand { d }),
        _ => None,
    }
}

// A word from its kind, kept to four bits, and its fields, kept to nine.
#[tactic(auto, unfolding(crate::specs::Encoding::put))]
pub fn put(k: u32, d: u16, a: u16, b: u16) -> u32
    ensures { result ≡ spec.put k d a b }
{
    (k % 16) * StepWord::KIND_UNIT
        + ((d as u32) % StepWord::FIELD) * StepWord::NUMBERS
        + ((a as u32) % StepWord::FIELD) * StepWord::FIELD
        + (b as u32) % StepWord::FIELD
}
