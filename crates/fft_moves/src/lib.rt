// A pair of a layer taken from the lent words into slots, with its factor, and put back.
#![tactic(auto)]

ghost use Rattle.std.specs.Prelude.{◌≡◌, [], ◌*◌, ◌≤◌, length};
ghost use Rattle.fft_numbers.specs.Layer.{pair_taken, put_back};
ghost use Rattle.fft_slots.specs.inner.Inner.{Done};
ghost use Rattle.fft_moves.specs.inner.Inner.{numbers_loaded};

use fft_sizes::pair::Pair;
use fft_slots::Slot;

// v and u into their slots.
fn load(n: usize, pair: Pair, numbers: &[u64], work: &mut [u64])
    requires { (2 ≤ n) × (n ≤ 8) × (length numbers.now ≡ 2 * pair.layer.count * n) × (length work.old ≡ 512) }
    ensures { Done n (2 * pair.layer.count) (numbers_loaded pair.layer.count pair.layer.distance pair.place) [] numbers.now work.old numbers.now work.new }
{
    let count = pair.layer.count;
    let u = pair.place;
    let v = u + pair.layer.distance;
    Slot::C.load(n, numbers, v, 2 * count, work);
    Slot::D.load(n, numbers, count + v, 2 * count, work);
    Slot::URe.load(n, numbers, u, 2 * count, work);
    Slot::UIm.load(n, numbers, count + u, 2 * count, work);
}

// The factor re + im i, v and u into their slots.
pub fn take(n: usize, pair: Pair, numbers: &[u64], work: &mut [u64])
    requires { (2 ≤ n) × (n ≤ 8) × (length numbers.now ≡ 2 * pair.layer.count * n) × (length work.old ≡ 512) }
    ensures { Done n (2 * pair.layer.count) (pair_taken pair.layer.count pair.layer.distance pair.re pair.im pair.place) [] numbers.now work.old numbers.now work.new }
{
    Slot::A.put(n, pair.re, work);
    Slot::B.put(n, pair.im, work);
    load(n, pair, numbers, work);
}

// u plus at u's place, u minus at v's.
pub fn put_back(n: usize, pair: Pair, numbers: &mut [u64], work: &[u64])
    requires { (2 ≤ n) × (n ≤ 8) × (length numbers.old ≡ 2 * pair.layer.count * n) × (length work.now ≡ 512) }
    ensures { Done n (2 * pair.layer.count) (put_back pair.layer.count pair.layer.distance pair.place) [] numbers.old work.now numbers.new work.now }
{
    let count = pair.layer.count;
    let u = pair.place;
    let v = u + pair.layer.distance;
    Slot::PlusRe.store(n, work, numbers, u, 2 * count);
    Slot::PlusIm.store(n, work, numbers, count + u, 2 * count);
    Slot::MinusRe.store(n, work, numbers, v, 2 * count);
    Slot::MinusIm.store(n, work, numbers, count + v, 2 * count);
}
