// The complex product between lent slices: its operands into slots, the six calls, and its result out of them.
#![tactic(auto)]

ghost use Rattle.std.specs.Prelude.{◌≡◌, ◌*◌, ◌≤◌, length, replicate};
ghost use Rattle.fft_numbers.specs.Calls.{complex_shares, complex_start, complex_tape};
ghost use Rattle.fft_slots.specs.inner.Inner.{HeldIn};
ghost use Rattle.fft_lent.specs.inner.Inner.{PartsOut};

use fft_product::multiply_complex;
use fft_slots::Slot;
use masked_work::clear;
use word::step_word::StepWord;

// Zeros, with the parts of x and y in slots.
fn load(n: usize, x: &[u64], y: &[u64], work: &mut [u64])
    requires { (2 ≤ n) × (n ≤ 8) × (length x.now ≡ 2 * n) × (length y.now ≡ 2 * n) × (length work.old ≡ 512) }
    ensures { HeldIn n work.new (complex_start n x.now y.now) }
{
    clear(work, StepWord::REGISTERS * n);
    Slot::A.load(n, x, 0, 2, work);
    Slot::B.load(n, x, 1, 2, work);
    Slot::C.load(n, y, 0, 2, work);
    Slot::D.load(n, y, 1, 2, work);
}

// The real and the imaginary part out of their slots.
fn store(n: usize, work: &[u64], res: &mut [u64])
    requires { (2 ≤ n) × (n ≤ 8) × (length work.now ≡ 512) × (length res.old ≡ 2 * n) }
    ensures { PartsOut n work.now res.new }
{
    Slot::Re.store(n, work, res, 0, 2);
    Slot::Im.store(n, work, res, 1, 2);
}

// The whole product; the work slice is zeros afterwards.
pub fn product_done(n: usize, x: &[u64], y: &[u64], res: &mut [u64], work: &mut [u64], tape: &[u64])
    requires { (2 ≤ n) × (n ≤ 8) × (length x.now ≡ 2 * n) × (length y.now ≡ 2 * n) × (length res.old ≡ 2 * n) × (length work.old ≡ 512) × (complex_tape n ≤ length tape.now) }
    ensures { (res.new ≡ complex_shares n x.now y.now tape.now) × (work.new ≡ replicate (length work.old) 0) }
{
    load(n, x, y, work);
    multiply_complex(n, tape, 0, work);
    store(n, work, res);
    clear(work, StepWord::REGISTERS * n);
}
