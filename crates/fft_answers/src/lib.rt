// The answers of the two calls, by lengths: the turn-downs in their order.
#![tactic(auto)]

ghost use Rattle.std.specs.Prelude.{◌≡◌, IfOk};
ghost use Rattle.checks.specs.Answers.{answer_of};
ghost use Rattle.fft_numbers.specs.Calls.{complex_answer, layer_answer};
ghost use Rattle.fft_answers.specs.inner.Inner.{counts_of};

use checks::refusal::{Counts, Refusal};
use checks::share_count::is_share_count;
use compiled_product::ProductPlan;
use compiled_sum::SumPlan;
use fft_sizes::layer::Layer;
use masked_plan::compiled_plan::CompiledPlan;
use word::step_word::StepWord;

// Tape words as units of n(n-1): four products and two sums, and for a pair of a layer four products and six sums.
const COMPLEX_UNITS: usize = 4 * ProductPlan::UNITS + 2 * SumPlan::UNITS;

const PAIR_UNITS: usize = 4 * ProductPlan::UNITS + 6 * SumPlan::UNITS;

// Of the complex product.
#[tactic(auto, using(word::proofs::Small::share_range, fft_numbers::proofs::Tape::complex_units, masked_call::proofs::Tape::pairs_most), unfolding(fft_numbers::specs::Calls::complex_answer))]
pub fn complex_answer(
    n: usize,
    x: usize,
    y: usize,
    res: usize,
    work: usize,
    tape: usize,
) -> Result<Counts, Refusal>
    ensures { answer_of result ≡ complex_answer n x y res work tape }
{
    if !is_share_count(n) {
        return Err(Refusal::ShareCount);
    }
    if x != 2 * n {
        return Err(Refusal::Length);
    }
    if y != 2 * n {
        return Err(Refusal::Length);
    }
    if res != 2 * n {
        return Err(Refusal::Length);
    }
    if work != StepWord::CELLS {
        return Err(Refusal::Length);
    }
    let needed = COMPLEX_UNITS * (n * (n - 1));
    if tape < needed {
        return Err(Refusal::Tape);
    }
    Ok(Counts {
        words: 0,
        tape: needed,
    })
}

// Of a layer, with the layer itself, whose sizes are right then.
#[tactic(auto, using(word::proofs::Small::share_range, fft_numbers::proofs::Tape::layer_units, fft_numbers::proofs::Powers::numbers_most, masked_call::proofs::Tape::pairs_most), unfolding(fft_numbers::specs::Calls::layer_answer))]
pub fn layer_answer(
    n: usize,
    count: usize,
    distance: usize,
    numbers: usize,
    factors: usize,
    work: usize,
    tape: usize,
) -> Result<(Layer, Counts), Refusal>
    ensures answer { answer_of (counts_of result) ≡ layer_answer n count distance numbers factors work tape }
    ensures layer { IfOk result (λ r. (r.0.count ≡ count) × (r.0.distance ≡ distance)) }
{
    if !is_share_count(n) {
        return Err(Refusal::ShareCount);
    }
    let Some(layer) = Layer::new(count, distance) else {
        return Err(Refusal::Layer);
    };
    if numbers != 2 * count * n {
        return Err(Refusal::Length);
    }
    if factors != 2 * layer.blocks() {
        return Err(Refusal::Length);
    }
    if work != StepWord::CELLS {
        return Err(Refusal::Length);
    }
    let needed = count / 2 * (PAIR_UNITS * (n * (n - 1)));
    if tape < needed {
        return Err(Refusal::Tape);
    }
    Ok((
        layer,
        Counts {
            words: 0,
            tape: needed,
        },
    ))
}
