// One share of AND's y: b's share behind the fresh words of its pairs. Share by share and not pair by pair, so that a share stays in a
// register; called with constants for n and over, the loops are straight code.
ghost use Rattle.std.specs.Prelude.{◌≡◌, ◌+◌, ◌-◌, ◌≤◌, ◌<◌, get_or, length, set};
ghost use Rattle.and_parts.specs.inner.Effects.{Register, at, behind, placed, row_words};

use crate::scratch::Y;

// y_k. A pair's word lies in the row of its lower share, and the rows one after the other from place t of the tape on, each shorter by one: share k has
// a word of each row before its own, and its own row.
pub fn fresh_share(
    k: usize,
    b: usize,
    over: usize,
    n: usize,
    tape: &[u64],
    t: usize,
    cells: &mut [u64],
)
    requires { (k < n) × (n ≤ 8) × (length cells.old ≡ 512) × Register (placed b over) × (t + row_words (n - 1) ≤ length tape.now) }
    ensures { cells.new ≡ set cells.old (256 + k) (behind tape.now k (n - 1) t (get_or cells.old (at (placed b over) k) 0)) }
{
    let mut y = cells[b + k * over];
    let mut p = t;
    let mut row = n - 1;
    for below in (0..k).rev() {
        y = y ^ tape[p + below];
        p += row;
        row -= 1;
    }
    for word in &tape[p..p + row] {
        y = y ^ *word;
    }
    cells[Y + k] = y;
}
