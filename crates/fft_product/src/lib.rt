// The complex product on slots: its six calls in order.
#![tactic(auto)]

ghost use Rattle.std.specs.Prelude.{◌≡◌, ◌+◌, ◌≤◌, drop, length};
ghost use Rattle.fft_numbers.specs.Acts.{tape_for};
ghost use Rattle.fft_numbers.specs.Complex.{complex_acts};
ghost use Rattle.fft_slots.specs.inner.Inner.{HeldDone};
ghost use Rattle.fft_product.specs.inner.Inner.{four_products, two_sums};

use fft_calls::{Add, Multiply, call};
use fft_slots::Slot;

// Products ac, bd, ad, bc in this order, over the tape from `start` on; the answer is the next place.
fn four_products(n: usize, tape: &[u64], start: usize, work: &mut [u64]) -> usize
    requires { (2 ≤ n) × (n ≤ 8) × (length work.old ≡ 512) × (start + tape_for n four_products ≤ length tape.now) }
    ensures { (result ≡ start + tape_for n four_products) × HeldDone n four_products (drop start tape.now) work.old work.new }
{
    let t = call::<Multiply>(n, Slot::Ac, Slot::A, Slot::C, tape, start, work);
    let t = call::<Multiply>(n, Slot::Bd, Slot::B, Slot::D, tape, t, work);
    let t = call::<Multiply>(n, Slot::Ad, Slot::A, Slot::D, tape, t, work);
    call::<Multiply>(n, Slot::Bc, Slot::B, Slot::C, tape, t, work)
}

// ac - bd, and then ad + bc, likewise.
fn two_sums(n: usize, tape: &[u64], start: usize, work: &mut [u64]) -> usize
    requires { (2 ≤ n) × (n ≤ 8) × (length work.old ≡ 512) × (start + tape_for n two_sums ≤ length tape.now) }
    ensures { (result ≡ start + tape_for n two_sums) × HeldDone n two_sums (drop start tape.now) work.old work.new }
{
    Slot::Bd.flip(n, work);
    let t = call::<Add>(n, Slot::Re, Slot::Ac, Slot::Bd, tape, start, work);
    call::<Add>(n, Slot::Im, Slot::Ad, Slot::Bc, tape, t, work)
}

// All six.
pub fn multiply_complex(n: usize, tape: &[u64], start: usize, work: &mut [u64]) -> usize
    requires { (2 ≤ n) × (n ≤ 8) × (length work.old ≡ 512) × (start + tape_for n complex_acts ≤ length tape.now) }
    ensures { (result ≡ start + tape_for n complex_acts) × HeldDone n complex_acts (drop start tape.now) work.old work.new }
{
    let t = four_products(n, tape, start, work);
    two_sums(n, tape, t, work)
}
