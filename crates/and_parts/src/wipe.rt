// The end of AND: its scratch cells hold nothing of its operands. This comes after the copy of z to d, not after the last use of t:
// the stores to it keep masked sums apart, and right before a wipe they would be dead to the compiler. tests/leakage looks at its code.
ghost use Rattle.std.specs.Prelude.{◌≡◌, ◌≤◌, length};
ghost use Rattle.masking.specs.Translation.{scratch, scratch_cells, wiping};
ghost use Rattle.and_parts.specs.inner.Effects.{Still};

use crate::scratch::{T, U, Y, Z};

// Zeros into AND's scratch cells: y and z of each share, t and u.
pub fn wipe(n: usize, cells: &mut [u64])
    requires { (n ≤ 8) × (length cells.old ≡ 512) }
    ensures { Still (wiping (scratch_cells scratch n)) cells.old cells.new }
{
    for i in 0..n {
        cells[Y + i] = 0;
        cells[Z + i] = 0;
    }
    cells[T] = 0;
    cells[U] = 0;
}
