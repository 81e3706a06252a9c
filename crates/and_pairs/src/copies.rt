// What AND does once per share: products of the same share into z, z copied out to d. Called with a constant n, and with a
// constant distance `over` between an operand's shares, the loops are straight code.
ghost use Rattle.std.specs.Prelude.{◌≡◌, ◌≤◌, length};
ghost use Rattle.and_parts.specs.inner.Effects.{NearlyStill, Register, at, copy_out, diagonal, placed};

use and_parts::once::Place;
use and_parts::scratch::{Y, Z};

// z_i = a_i AND y_i.
pub fn diagonal(a: usize, over: usize, n: usize, cells: &mut [u64])
    requires { (n ≤ 8) × (length cells.old ≡ 512) × Register (placed a over) }
    ensures { NearlyStill (diagonal n (at (placed a over))) cells.old cells.new }
{
    for i in 0..n {
        cells[Z + i] = cells[a + i * over] & cells[Y + i];
    }
}

// d_i = z_i.
pub fn copy_out(d: Place, n: usize, cells: &mut [u64])
    requires { (n ≤ 8) × (length cells.old ≡ 512) × Register d }
    ensures { NearlyStill (copy_out n (at d)) cells.old cells.new }
{
    for i in 0..n {
        cells[d.cell(i)] = cells[Z + i];
    }
}
