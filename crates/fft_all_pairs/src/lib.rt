// The pairs of a layer on shares, by rising place, over consecutive parts of the tape.
#![tactic(auto)]

ghost use Rattle.std.specs.Prelude.{◌≡◌, ◌*◌, ◌≤◌, length, replicate};
ghost use Rattle.fft_numbers.specs.Calls.{layer_shares, layer_tape};
ghost use Rattle.fft_numbers.specs.Layer.{block_count};

use fft_pair::pair;
use fft_sizes::layer::Layer;
use masked_work::clear;
use word::step_word::StepWord;

// All pairs, each with its block's factor; the work slice is zeros at the start.
fn all_pairs(
    n: usize,
    layer: Layer,
    numbers: &mut [u64],
    factors: &[u64],
    work: &mut [u64],
    tape: &[u64],
)
    requires { (2 ≤ n) × (n ≤ 8) × (length numbers.old ≡ 2 * layer.count * n) × (length factors.now ≡ 2 * block_count layer.count layer.distance) × (work.old ≡ replicate 512 0) × (layer_tape n layer.count ≤ length tape.now) }
    ensures { numbers.new ≡ layer_shares n layer.count layer.distance numbers.old factors.now tape.now }
{
    let mut t = 0;
    for k in 0..layer.count / 2 {
        let here = layer.pair(k, factors);
        t = pair(n, here, numbers, work, tape, t);
    }
}

// The whole layer; the work slice is zeros afterwards.
pub fn layer_done(
    n: usize,
    layer: Layer,
    numbers: &mut [u64],
    factors: &[u64],
    work: &mut [u64],
    tape: &[u64],
)
    requires { (2 ≤ n) × (n ≤ 8) × (length numbers.old ≡ 2 * layer.count * n) × (length factors.now ≡ 2 * block_count layer.count layer.distance) × (length work.old ≡ 512) × (layer_tape n layer.count ≤ length tape.now) }
    ensures { (numbers.new ≡ layer_shares n layer.count layer.distance numbers.old factors.now tape.now) × (work.new ≡ replicate (length work.old) 0) }
{
    clear(work, StepWord::REGISTERS * n);
    all_pairs(n, layer, numbers, factors, work, tape);
    clear(work, StepWord::REGISTERS * n);
}
