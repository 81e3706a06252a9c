// The first half of AND: b's shares in y, each behind the fresh words of its pairs.
ghost use Rattle.std.specs.Prelude.{◌≡◌, ◌++◌, ◌≤◌, length};
ghost use Rattle.masking.specs.Translation.{pairs, refresh, scratch, shares};
ghost use Rattle.and_parts.specs.inner.Effects.{Enough, Nearly, Register, at, copy_in, placed};

use and_parts::fresh::fresh_share;

// The copy of b into y and its refresh, from place t of the tape on; the answer is the next place.
pub fn fresh_copy(
    b: usize,
    over: usize,
    n: usize,
    tape: &[u64],
    t: usize,
    cells: &mut [u64],
) -> usize
    requires le_n { (2 ≤ n) × (n ≤ 8) × (length cells.old ≡ 512) × Register (placed b over) }
    requires enough { Enough tape.now t (refresh scratch (pairs (shares n))) }
    ensures { Nearly (copy_in n (at (placed b over)) ++ refresh scratch (pairs (shares n))) tape.now t cells.old cells.new result }
{
    for k in 0..n {
        fresh_share(k, b, over, n, tape, t, cells);
    }
    t + n * (n - 1) / 2
}
