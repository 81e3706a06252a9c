// Two of ADD's steps on its helper registers H, G, P and T: G = G XOR T; T = P SHL k.
#![tactic(auto)]

ghost use Rattle.std.specs.Prelude.{◌≡◌, [], ◌∷◌, ◌≤◌, ◌<◌, length};
ghost use Rattle.masking.specs.Translation.{blocks, r_g, r_p, r_t, scratch};
ghost use Rattle.word.specs.declared.step.Step.TheVariants.{Shl, Xor};
ghost use Rattle.and_parts.specs.inner.Effects.{Still};

use word::step_word::StepWord;

// The first helper's share 0, and how far apart a helper's shares are.
const H: usize = StepWord::HELPERS as usize;

const STRIDE: usize = StepWord::HELPER_SHARE as usize;

// Both for one share and then for another: share i's helpers are the cells from q on. The last share goes first, because the
// AND before may leave P's last share in a register, and share 0 is not to be loaded over it. tests/leakage has no call with an ADD.
pub fn merged(k: u32, n: usize, cells: &mut [u64])
    requires { (k < 64) × (n ≤ 8) × (length cells.old ≡ 512) }
    ensures { Still (blocks scratch n (Xor r_g r_g r_t ∷ Shl r_t r_p k ∷ [])) cells.old cells.new }
{
    for i in (0..n).rev() {
        let q = H + i * STRIDE;
        cells[q + 1] = cells[q + 1] ^ cells[q + 3];
        cells[q + 3] = cells[q + 2] << k;
    }
}
