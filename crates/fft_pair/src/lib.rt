// One pair of a layer: taken into slots, the product with its factor, u plus and u minus, and put back.
#![tactic(auto)]

ghost use Rattle.std.specs.Prelude.{◌≡◌, ◌+◌, ◌*◌, ◌≤◌, drop, length};
ghost use Rattle.fft_numbers.specs.Acts.{tape_for};
ghost use Rattle.fft_numbers.specs.Layer.{plus_minus};
ghost use Rattle.fft_sizes.specs.inner.Inner.{acts_of};
ghost use Rattle.fft_slots.specs.inner.Inner.{Done, HeldDone};

use fft_calls::{Add, call};
use fft_moves::{put_back, take};
use fft_product::multiply_complex;
use fft_sizes::pair::Pair;
use fft_slots::Slot;

// u plus the product, and then u minus it, each real part first. The signs are flipped one by one: side by side, the compiler flips both in one
// wide word.
fn plus_minus(n: usize, tape: &[u64], start: usize, work: &mut [u64]) -> usize
    requires { (2 ≤ n) × (n ≤ 8) × (length work.old ≡ 512) × (start + tape_for n plus_minus ≤ length tape.now) }
    ensures { (result ≡ start + tape_for n plus_minus) × HeldDone n plus_minus (drop start tape.now) work.old work.new }
{
    let t = call::<Add>(n, Slot::PlusRe, Slot::URe, Slot::Re, tape, start, work);
    let t = call::<Add>(n, Slot::PlusIm, Slot::UIm, Slot::Im, tape, t, work);
    Slot::Re.flip(n, work);
    let t = call::<Add>(n, Slot::MinusRe, Slot::URe, Slot::Re, tape, t, work);
    Slot::Im.flip(n, work);
    call::<Add>(n, Slot::MinusIm, Slot::UIm, Slot::Im, tape, t, work)
}

// The pair over the tape from `start` on; the answer is the next place.
pub fn pair(
    n: usize,
    pair: Pair,
    numbers: &mut [u64],
    work: &mut [u64],
    tape: &[u64],
    start: usize,
) -> usize
    requires { (2 ≤ n) × (n ≤ 8) × (length numbers.old ≡ 2 * pair.layer.count * n) × (length work.old ≡ 512) × (start + tape_for n (acts_of pair) ≤ length tape.now) }
    ensures { (result ≡ start + tape_for n (acts_of pair)) × Done n (2 * pair.layer.count) (acts_of pair) (drop start tape.now) numbers.old work.old numbers.new work.new }
{
    take(n, pair, numbers, work);
    let t = multiply_complex(n, tape, start, work);
    let t = plus_minus(n, tape, t, work);
    put_back(n, pair, numbers, work);
    t
}
