// The second half of AND: the cross products of its pairs of shares. Called with constants for n and over, the loops are straight code.
ghost use Rattle.std.specs.Prelude.{◌≡◌, ◌+◌, ◌-◌, ◌≤◌, ◌<◌, length};
ghost use Rattle.masking.specs.Translation.{pairs, pairs_of, products, scratch, shares, up_from};
ghost use Rattle.and_parts.specs.inner.Effects.{Enough, Nearly, Register, at, placed};

use and_parts::scratch::{T, Y, Z};

// The cross products of a and y for each j above i into z_i and z_j, behind a fresh word.
fn cross_row(
    a: usize,
    over: usize,
    i: usize,
    n: usize,
    tape: &[u64],
    t: usize,
    cells: &mut [u64],
) -> usize
    requires i_lt_n { (i < n) × (n ≤ 8) × (length cells.old ≡ 512) × Register (placed a over) }
    requires enough { Enough tape.now t (products scratch (at (placed a over)) (pairs_of i (up_from (i + 1) (n - (i + 1))))) }
    ensures { Nearly (products scratch (at (placed a over)) (pairs_of i (up_from (i + 1) (n - (i + 1))))) tape.now t cells.old cells.new result }
{
    let mut t = t;
    let p = a + i * over;
    let mut z = cells[Z + i];
    for j in i + 1..n {
        // Not to be reordered: s is stored before a_j is loaded, and the tape word read again after w is stored (tests/leakage).
        let s = tape[t] ^ (cells[p] & cells[Y + j]);
        cells[T] = s;
        let w = s ^ (cells[a + j * over] & cells[Y + i]);
        cells[T] = w;
        z = z ^ tape[t];
        cells[Z + j] = cells[Z + j] ^ w;
        t += 1;
    }
    cells[Z + i] = z;
    t
}

// Those of every pair of shares, row by row, from place t of the tape on; the answer is the next place.
pub fn crosses(a: usize, over: usize, n: usize, tape: &[u64], t: usize, cells: &mut [u64]) -> usize
    requires n_bound { (n ≤ 8) × (length cells.old ≡ 512) × Register (placed a over) }
    requires enough { Enough tape.now t (products scratch (at (placed a over)) (pairs (shares n))) }
    ensures { Nearly (products scratch (at (placed a over)) (pairs (shares n))) tape.now t cells.old cells.new result }
{
    let mut t = t;
    for i in 0..n {
        t = cross_row(a, over, i, n, tape, t, cells);
    }
    t
}
