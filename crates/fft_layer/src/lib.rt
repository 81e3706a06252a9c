// Complex numbers on shares: the product, and one layer of the transform. What they give stands in fft_numbers's specs; they are made of the calls
// on shares, checked once at the start, with numbers on the way in slots of the work slice.
#![tactic(auto)]

ghost use Rattle.std.specs.Prelude.{◌≡◌};
ghost use Rattle.checks.specs.Answers.{answer_of};
ghost use Rattle.fft_numbers.specs.Calls.{complex_call_answer, complex_result, complex_work, layer_call_answer, layer_numbers, layer_work};
ghost use Rattle.fft_numbers.specs.Holds.{Transforms};
ghost use Rattle.fft_numbers.specs.Means.{LayerMeans, OnSharesMeans};
ghost use Rattle.fft_numbers.specs.RandomWords.{TransformWords};

use checks::refusal::{Counts, Refusal};
use fft_all_pairs::layer_done;
use fft_answers::{complex_answer, layer_answer};
use fft_lent::product_done;

// The product of shared complex numbers x and y, n shares each: share i has the real part in word 2i and the imaginary part in word 2i + 1, in the
// result too. Turned down with 1 where n is not 2 to 8, 4 where a slice has the wrong length, 6 where the tape is too short; all is then as it was.
// `work` has 512 words, zeros afterwards. What holds of it is `Transforms`.
pub fn complex_product(
    n: usize,
    x: &[u64],
    y: &[u64],
    res: &mut [u64],
    work: &mut [u64],
    tape: &[u64],
) -> Result<Counts, Refusal>
    ensures answer { answer_of result ≡ complex_call_answer n x.now y.now res.old work.old tape.now }
    ensures res { res.new ≡ complex_result n x.now y.now res.old work.old tape.now }
    ensures work { work.new ≡ complex_work n x.now y.now res.old work.old tape.now }
    ensures holds { Transforms }
    ensures means { OnSharesMeans }
    ensures words { TransformWords }
{
    let counts = complex_answer(n, x.len(), y.len(), res.len(), work.len(), tape.len())?;
    product_done(n, x, y, res, work, tape);
    Ok(counts)
}

// One layer over `count` shared complex numbers at `distance`, in place: real part j of share i is word 2 count i + j, its imaginary part `count`
// words later. `factors` are plain, one for each block of twice the distance, real parts and then imaginary ones. Turned down with 1, then 7 where
// count or distance is not a power of two, count is not 2 to 1,024 or distance not below it, then 4 and 6; all is then as it was.
pub fn layer(
    n: usize,
    count: usize,
    distance: usize,
    numbers: &mut [u64],
    factors: &[u64],
    work: &mut [u64],
    tape: &[u64],
) -> Result<Counts, Refusal>
    ensures answer { answer_of result ≡ layer_call_answer n count distance numbers.old factors.now work.old tape.now }
    ensures numbers { numbers.new ≡ layer_numbers n count distance numbers.old factors.now work.old tape.now }
    ensures work { work.new ≡ layer_work n count distance numbers.old factors.now work.old tape.now }
    ensures holds { Transforms }
    ensures plainly { LayerMeans }
    ensures means { OnSharesMeans }
    ensures words { TransformWords }
{
    let (layer, counts) = layer_answer(
        n,
        count,
        distance,
        numbers.len(),
        factors.len(),
        work.len(),
        tape.len(),
    )?;
    layer_done(n, layer, numbers, factors, work, tape);
    Ok(counts)
}
