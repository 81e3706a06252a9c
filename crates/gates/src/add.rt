// ADD: the Kogge-Stone adder on helper registers H, G, P and T.
ghost use Rattle.std.specs.Prelude.{◌≡◌, [], ◌∷◌, ◌≤◌, ◌<◌, length};
ghost use Rattle.masking.specs.Translation as translation;
ghost use Rattle.gates.specs.inner.PlanWords.{Adds, IsHelper};
ghost use Rattle.masking.specs.Translation.{blocks, r_g, r_p, r_t, scratch};
ghost use Rattle.word.specs.declared.step.Step.TheVariants.{And, Shl, Xor};
ghost use Rattle.and_parts.specs.inner.Effects.{Enough, Ran};

use add_turn::merged;
use and_parts::once::{Op, Place, each};
use and_shares::and::and_of;
use word::step_word::StepWord;

// The first helper register's share 0, and how far apart a helper's shares are.
const FIRST: usize = StepWord::HELPERS as usize;

const STRIDE: usize = StepWord::HELPER_SHARE as usize;

const H: Place = Place {
    base: FIRST,
    stride: STRIDE,
};

const G: Place = Place {
    base: FIRST + 1,
    stride: STRIDE,
};

const P: Place = Place {
    base: FIRST + 2,
    stride: STRIDE,
};

const T: Place = Place {
    base: FIRST + 3,
    stride: STRIDE,
};

// T = G SHL k; T = P AND T. The operands a and b of the AND are P and T, handed over as `and_of` asks.
fn begun(k: u32, a: Place, b: Place, n: usize, tape: &[u64], t: usize, cells: &mut [u64]) -> usize
    requires k_bound { (k < 64) × (n ≤ 8) × (length cells.old ≡ 512) × (2 ≤ n) × IsHelper 2 a × IsHelper 3 b }
    requires enough { Enough tape.now t (blocks scratch n (Shl r_t r_g k ∷ And r_t r_p r_t ∷ [])) }
    ensures { Ran (blocks scratch n (Shl r_t r_g k ∷ And r_t r_p r_t ∷ [])) tape.now t cells.old cells.new result }
{
    each(Op::Shl(k), T, G, G, n, cells);
    and_of::<STRIDE>(T, a.base, b.base, n, tape, t, cells)
}

// G = G XOR T; T = P SHL k; P = P AND T, with a and b as above.
fn passed(k: u32, a: Place, b: Place, n: usize, tape: &[u64], t: usize, cells: &mut [u64]) -> usize
    requires k_bound { (k < 64) × (n ≤ 8) × (length cells.old ≡ 512) × (2 ≤ n) × IsHelper 2 a × IsHelper 3 b }
    requires enough { Enough tape.now t (blocks scratch n (Xor r_g r_g r_t ∷ Shl r_t r_p k ∷ And r_p r_p r_t ∷ [])) }
    ensures { Ran (blocks scratch n (Xor r_g r_g r_t ∷ Shl r_t r_p k ∷ And r_p r_p r_t ∷ [])) tape.now t cells.old cells.new result }
{
    merged(k, n, cells);
    and_of::<STRIDE>(P, a.base, b.base, n, tape, t, cells)
}

// For k = 1, 2, 4, 8, 16, 32: T = G SHL k; T = P AND T; G = G XOR T and, except after 32, T = P SHL k; P = P AND T. `begun` and
// `passed` have one call each and the test is at the head, so that the compiler puts both in.
fn rounds(a: Place, b: Place, n: usize, tape: &[u64], t: usize, cells: &mut [u64]) -> usize
    requires n_bound { (n ≤ 8) × (length cells.old ≡ 512) × (2 ≤ n) × IsHelper 2 a × IsHelper 3 b }
    requires enough { Enough tape.now t (blocks scratch n translation.rounds) }
    ensures { Ran (blocks scratch n translation.rounds) tape.now t cells.old cells.new result }
{
    let mut t = t;
    for k in [1, 2, 4, 8, 16, 32] {
        t = begun(k, a, b, n, tape, t, cells);
        if k < 32 {
            t = passed(k, a, b, n, tape, t, cells);
        } else {
            each(Op::Xor, G, G, T, n, cells);
        }
    }
    t
}

// d = a + b for registers of a plan.
pub(crate) fn add_shares(
    d: Place,
    a: Place,
    b: Place,
    n: usize,
    tape: &[u64],
    t: usize,
    cells: &mut [u64],
) -> usize
    requires { Adds n d a b tape.now t cells.old }
    ensures { Ran (blocks scratch n (translation.adding d.base a.base b.base)) tape.now t cells.old cells.new result }
{
    each(Op::Xor, H, a, b, n, cells);
    let t = and_of::<{ StepWord::REGISTERS }>(G, a.base, b.base, n, tape, t, cells);
    each(Op::Shl(0), P, H, H, n, cells);
    let t = rounds(P, T, n, tape, t, cells);
    each(Op::Shl(1), T, G, G, n, cells);
    each(Op::Xor, d, H, T, n, cells);
    t
}
