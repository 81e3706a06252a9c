// The pairs of a layer on plain words, one after another in place.
ghost use Rattle.std.specs.Prelude.{◌≡◌, ◌*◌, length};
ghost use Rattle.binary64.specs.Sum.{sum};
ghost use Rattle.fft_numbers.specs.Acts.{flipped};
ghost use Rattle.fft_numbers.specs.Calls.{layer_words};
ghost use Rattle.fft_numbers.specs.Layer.{block_count};
ghost use Rattle.fft_plain.specs.inner.Inner.{PlainDone};
ghost use Rattle.fft_sizes.specs.inner.Inner.{acts_of};

use crate::{difference, product};
use fft_sizes::layer::Layer;
use fft_sizes::pair::Pair;

// u plus w and u minus w. A function of its own, called twice: in the loop over pairs the compiler would make jumps of its choices.
fn plus_minus(u: u64, w: u64) -> (u64, u64)
    ensures { (result.0 ≡ sum u w) × (result.1 ≡ sum u (flipped w)) }
{
    (binary64_plain::sum(u, w), difference(u, w))
}

// A pair, at its places.
fn pair(pair: Pair, numbers: &mut [u64])
    requires { length numbers.old ≡ 2 * pair.layer.count }
    ensures { PlainDone (2 * pair.layer.count) (acts_of pair) numbers.old numbers.new }
{
    let count = pair.layer.count;
    let u = pair.place;
    let v = u + pair.layer.distance;
    let w = product(pair.re, pair.im, numbers[v], numbers[count + v]);
    let real = plus_minus(numbers[u], w.re);
    let imaginary = plus_minus(numbers[count + u], w.im);
    numbers[u] = real.0;
    numbers[count + u] = imaginary.0;
    numbers[v] = real.1;
    numbers[count + v] = imaginary.1;
}

// All pairs by rising place, each with its block's factor.
pub(crate) fn all_pairs(layer: Layer, numbers: &mut [u64], factors: &[u64])
    requires { (length numbers.old ≡ 2 * layer.count) × (length factors.now ≡ 2 * block_count layer.count layer.distance) }
    ensures { numbers.new ≡ layer_words layer.count layer.distance numbers.old factors.now }
{
    for k in 0..layer.count / 2 {
        let here = layer.pair(k, factors);
        pair(here, numbers);
    }
}
