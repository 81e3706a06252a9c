// Complex numbers for C: the product and one layer of the transform, on shares and on plain words. What holds of those on shares is `Transforms`; what they
// come to, `LayerMeans` and `OnSharesMeans`; how many tape words they report, `TransformWords`.
ghost use Rattle.std.specs.Prelude.{◌≡◌};
ghost use Rattle.fft_numbers.specs.Calls.{complex_call_answer, complex_result, complex_work, layer_call_answer, layer_numbers, layer_work, plain_call_answer, plain_numbers};
ghost use Rattle.fft_numbers.specs.Complex.{complex_im, complex_re};
ghost use Rattle.fft_numbers.specs.Holds.{Transforms};
ghost use Rattle.fft_numbers.specs.Means.{LayerMeans, OnSharesMeans};
ghost use Rattle.fft_numbers.specs.RandomWords.{TransformWords};

use checks::answer::Answer;
use fft_plain::Complex;

// The product of a + bi and c + di.
#[unsafe(no_mangle)]
pub extern "C" fn lubewon_complex_product(a: u64, b: u64, c: u64, d: u64) -> Complex
    ensures re { result.re ≡ complex_re a b c d }
    ensures im { result.im ≡ complex_im a b c d }
{
    fft_plain::product(a, b, c, d)
}

// One layer over `count` complex numbers at `distance`, in place.
#[unsafe(no_mangle)]
pub extern "C" fn lubewon_layer(
    count: usize,
    distance: usize,
    numbers: &mut [u64],
    factors: &[u64],
) -> Answer
    ensures answer { result ≡ plain_call_answer count distance numbers.old factors.now }
    ensures numbers { numbers.new ≡ plain_numbers count distance numbers.old factors.now }
    ensures holds { LayerMeans }
{
    Answer::from(fft_plain::layer(count, distance, numbers, factors))
}

// The product of complex numbers on n shares; `work` has 512 words and is zeros afterwards.
#[unsafe(no_mangle)]
pub extern "C" fn lubewon_complex_product_shares(
    n: usize,
    x: &[u64],
    y: &[u64],
    res: &mut [u64],
    work: &mut [u64],
    tape: &[u64],
) -> Answer
    ensures answer { result ≡ complex_call_answer n x.now y.now res.old work.old tape.now }
    ensures res { res.new ≡ complex_result n x.now y.now res.old work.old tape.now }
    ensures work { work.new ≡ complex_work n x.now y.now res.old work.old tape.now }
    ensures holds { Transforms }
    ensures means { OnSharesMeans }
    ensures words { TransformWords }
{
    Answer::from(fft_layer::complex_product(n, x, y, res, work, tape))
}

// One layer over `count` complex numbers on n shares at `distance`, in place, likewise.
#[unsafe(no_mangle)]
pub extern "C" fn lubewon_layer_shares(
    n: usize,
    count: usize,
    distance: usize,
    numbers: &mut [u64],
    factors: &[u64],
    work: &mut [u64],
    tape: &[u64],
) -> Answer
    ensures answer { result ≡ layer_call_answer n count distance numbers.old factors.now work.old tape.now }
    ensures numbers { numbers.new ≡ layer_numbers n count distance numbers.old factors.now work.old tape.now }
    ensures work { work.new ≡ layer_work n count distance numbers.old factors.now work.old tape.now }
    ensures holds { Transforms }
    ensures plainly { LayerMeans }
    ensures means { OnSharesMeans }
    ensures words { TransformWords }
{
    Answer::from(fft_layer::layer(n, count, distance, numbers, factors, work, tape))
}
