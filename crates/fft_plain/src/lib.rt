// Complex numbers on plain words: the product, and one layer of the transform. What they give stands in fft_numbers's specs.
#![tactic(auto)]

ghost use Rattle.std.specs.Prelude.{◌≡◌, ◌*◌, IfErr, IfOk};
ghost use Rattle.checks.specs.Answers.{answer_of, done, refusal_of};
ghost use Rattle.binary64.specs.Sum.{sum};
ghost use Rattle.fft_numbers.specs.Acts.{flipped};
ghost use Rattle.fft_numbers.specs.Calls.{plain_call_answer, plain_layer_answer, plain_numbers};
ghost use Rattle.fft_numbers.specs.Complex.{complex_im, complex_re};
ghost use Rattle.fft_numbers.specs.Layer.{block_count};
ghost use Rattle.fft_numbers.specs.Means.{LayerMeans};

use crate::pairs::all_pairs;
use checks::refusal::{Counts, Refusal};
use fft_numbers::SIGN;
use fft_sizes::layer::Layer;

mod pairs;

// A complex number: two words as binary64 numbers.
#[repr(C)]
#[derive(Clone, Copy)]
pub struct Complex {
    pub re: u64,
    pub im: u64,
}

// a less b: their sum with the sign bit of b flipped.
pub(crate) fn difference(a: u64, b: u64) -> u64
    ensures { result ≡ sum a (flipped b) }
{
    binary64_plain::sum(a, b ^ SIGN)
}

// The product of a + bi and c + di: four products, then one sum each. Never turned down.
pub fn product(a: u64, b: u64, c: u64, d: u64) -> Complex
    ensures re { result.re ≡ complex_re a b c d }
    ensures im { result.im ≡ complex_im a b c d }
{
    let ac = binary64_plain::product(a, c);
    let bd = binary64_plain::product(b, d);
    let ad = binary64_plain::product(a, d);
    let bc = binary64_plain::product(b, c);
    let re = difference(ac, bd);
    let im = binary64_plain::sum(ad, bc);
    Complex { re, im }
}

// The answer by lengths: the turn-downs in their order, or the layer, whose sizes are right then.
#[tactic(auto, unfolding(fft_numbers::specs::Calls::plain_layer_answer))]
fn layer_answer(
    count: usize,
    distance: usize,
    numbers: usize,
    factors: usize,
) -> Result<Layer, Refusal>
    ensures refused { IfErr result (λ e. plain_layer_answer count distance numbers factors ≡ refusal_of e) }
    ensures done { IfOk result (λ l. plain_layer_answer count distance numbers factors ≡ done 0 0) }
    ensures layer { IfOk result (λ l. (l.count ≡ count) × (l.distance ≡ distance)) }
    ensures lengths { IfOk result (λ l. (numbers ≡ 2 * count) × (factors ≡ 2 * block_count count distance)) }
{
    let Some(layer) = Layer::new(count, distance) else {
        return Err(Refusal::Layer);
    };
    if numbers != 2 * count {
        return Err(Refusal::Length);
    }
    if factors != 2 * layer.blocks() {
        return Err(Refusal::Length);
    }
    Ok(layer)
}

// One layer over `count` complex numbers at `distance`: real parts and then imaginary parts, changed in place. `factors` has a factor for each
// block of twice the distance, real parts and then imaginary ones. Turned down with 7 where count or distance is not a power of two, count is not
// 2 to 1,024 or distance not below it, and with 4 where a slice has the wrong length; `numbers` is then as it was.
#[tactic(auto, using(fft_numbers::proofs::Means::layer_means), unfolding(fft_numbers::specs::Calls::plain_layer_answer))]
pub fn layer(
    count: usize,
    distance: usize,
    numbers: &mut [u64],
    factors: &[u64],
) -> Result<Counts, Refusal>
    ensures answer { answer_of result ≡ plain_call_answer count distance numbers.old factors.now }
    ensures numbers { numbers.new ≡ plain_numbers count distance numbers.old factors.now }
    ensures holds { LayerMeans }
{
    let layer = layer_answer(count, distance, numbers.len(), factors.len())?;
    all_pairs(layer, numbers, factors);
    Ok(Counts::NONE)
}
