// Slots in the work slice: numbers held beside the cells of share programs. Share i of slot k is cell 352 + 16 i + k.
#![tactic(auto)]

ghost use Rattle.std.specs.Prelude.{◌≡◌, ◌∷◌, [], ◌≤◌, ◌<◌, length};
ghost use Rattle.masked_call.specs.Shares.{placed_in};
ghost use Rattle.fft_numbers.specs.Acts.{Flip, Put};
ghost use Rattle.fft_numbers.specs.Layout.{number_of};
ghost use Rattle.fft_copies.specs.inner.Inner.{Inside, written};
ghost use Rattle.fft_slots.specs.inner.Inner.{HeldDone, held_of, slot_at, slot_number, slot_step};

use fft_copies::{copy, copy_within};
use fft_numbers::SIGN;
use word::step_word::StepWord;

// The first cell that share programs do not use.
pub const HELD: usize = 352;

// Slots; the shares of a slot's number lie so far apart.
pub const SLOTS: usize = 16;

// What the slots hold: of the complex product its operands a + bi and c + di, the four products, and the result; of a layer u, u plus and u minus.
#[derive(Clone, Copy)]
pub enum Slot {
    A,
    B,
    C,
    D,
    Ac,
    Bd,
    Ad,
    Bc,
    Re,
    Im,
    URe,
    UIm,
    PlusRe,
    PlusIm,
    MinusRe,
    MinusIm,
}

impl Slot {
    // Its number.
    fn number(self) -> usize
        ensures is { result ≡ slot_number self }
        ensures few { result < 16 }
    {
        self as usize
    }

    // The cell of share 0.
    pub fn cell(self) -> usize
        ensures at { result ≡ slot_at (slot_number self) }
        ensures few { result < 368 }
    {
        HELD + self.number()
    }

    // Into it, the shares that lie `step` apart from `at` on.
    pub fn load(self, n: usize, from: &[u64], at: usize, step: usize, work: &mut [u64])
        requires { (n ≤ 8) × Inside n step at (length from.now) × (length from.now ≤ 65536) × (length work.old ≡ 512) }
        ensures { work.new ≡ written slot_step (slot_at (slot_number self)) 0 (number_of n step at from.now) work.old }
    {
        copy(n, from, at, step, work, self.cell(), SLOTS);
    }

    // Its shares to where they lie `step` apart from `at` on.
    pub fn store(self, n: usize, work: &[u64], to: &mut [u64], at: usize, step: usize)
        requires { (n ≤ 8) × Inside n step at (length to.old) × (length to.old ≤ 65536) × (length work.now ≡ 512) }
        ensures { to.new ≡ written step at 0 (held_of n (slot_number self) work.now) to.old }
    {
        copy(n, work, self.cell(), SLOTS, to, at, step);
    }

    // A plain word into it.
    pub fn put(self, n: usize, word: u64, work: &mut [u64])
        requires { (2 ≤ n) × (n ≤ 8) × (length work.old ≡ 512) }
        ensures { HeldDone n (Put (slot_number self) word ∷ []) [] work.old work.new }
    {
        put(n, self.number(), word, work);
    }

    // The sign bit of its number.
    pub fn flip(self, n: usize, work: &mut [u64])
        requires { (2 ≤ n) × (n ≤ 8) × (length work.old ≡ 512) }
        ensures { HeldDone n (Flip (slot_number self) ∷ []) [] work.old work.new }
    {
        flip(n, self.number(), work);
    }
}

// A plain word into slot k: share 0, with zeros beside it.
pub fn put(n: usize, k: usize, word: u64, work: &mut [u64])
    requires { (2 ≤ n) × (n ≤ 8) × (k < 16) × (length work.old ≡ 512) }
    ensures { HeldDone n (Put k word ∷ []) [] work.old work.new }
{
    let mut shares = [0u64; 8];
    shares[0] = word;
    copy(n, &shares, 0, 1, work, HELD + k, SLOTS);
}

// The sign bit of slot k's number, in share 0 alone.
pub fn flip(n: usize, k: usize, work: &mut [u64])
    requires { (2 ≤ n) × (n ≤ 8) × (k < 16) × (length work.old ≡ 512) }
    ensures { HeldDone n (Flip k ∷ []) [] work.old work.new }
{
    work[HELD + k] ^= SIGN;
}

// The numbers of slots a and b in registers 0 and 1.
pub fn operands(n: usize, a: Slot, b: Slot, work: &mut [u64])
    requires { (2 ≤ n) × (n ≤ 8) × (length work.old ≡ 512) }
    ensures { work.new ≡ placed_in 1 0 (held_of n (slot_number b) work.old) (placed_in 0 0 (held_of n (slot_number a) work.old) work.old) }
{
    copy_within(n, a.cell(), SLOTS, 0, StepWord::REGISTERS, work);
    copy_within(n, b.cell(), SLOTS, 1, StepWord::REGISTERS, work);
}
