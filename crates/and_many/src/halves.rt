// AND in two halves: b's shares in y behind fresh words, and the products of the same share; then the cross products, the copy of z to d and the wiping.
// Two functions, each small enough for the compiler to put it in wherever it is called: with a constant n and a constant distance `over` between an
// operand's shares it is straight code.
ghost use Rattle.std.specs.Prelude.{◌≡◌, ◌≤◌, length};
ghost use Rattle.masking.specs.Translation.{pairs, products, refresh, scratch, shares};
ghost use Rattle.and_parts.specs.inner.Effects.{Enough, Nearly, Register, Wholly, at, first_half, placed, second_half};

use and_pairs::copies::{copy_out, diagonal};
use and_pairs::fresh::fresh_copy;
use and_pairs::rows::crosses;
use and_parts::once::Place;
use and_parts::wipe::wipe;

pub(crate) fn first_half(
    a: usize,
    b: usize,
    over: usize,
    n: usize,
    tape: &[u64],
    t: usize,
    cells: &mut [u64],
) -> usize
    requires le_n { (2 ≤ n) × (n ≤ 8) × (length cells.old ≡ 512) × Register (placed a over) × Register (placed b over) }
    requires enough { Enough tape.now t (refresh scratch (pairs (shares n))) }
    ensures { Nearly (first_half n (at (placed a over)) (at (placed b over))) tape.now t cells.old cells.new result }
{
    let t = fresh_copy(b, over, n, tape, t, cells);
    diagonal(a, over, n, cells);
    t
}

pub(crate) fn second_half(
    d: Place,
    a: usize,
    over: usize,
    n: usize,
    tape: &[u64],
    t: usize,
    cells: &mut [u64],
) -> usize
    requires n_bound { (n ≤ 8) × (length cells.old ≡ 512) × Register d × Register (placed a over) }
    requires enough { Enough tape.now t (products scratch (at (placed a over)) (pairs (shares n))) }
    ensures { Wholly (second_half n (at d) (at (placed a over))) tape.now t cells.old cells.new result }
{
    let t = crosses(a, over, n, tape, t, cells);
    copy_out(d, n, cells);
    wipe(n, cells);
    t
}
