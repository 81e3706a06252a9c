// d = a AND b on three to eight shares, for operands whose shares lie `over` cells apart: 32 for registers of plans, 8 for ADD's helper registers. The number of
// shares is a const parameter, so that the compiler lays each out straight; `over` is a constant to it too in a program whose calls all hand over the same.
ghost use Rattle.std.specs.Prelude.{◌≤◌};
ghost use Rattle.and_parts.specs.inner.Effects.{Ran};
ghost use Rattle.and_many.specs.inner.Asked.{Asked, and_of};

use crate::halves::{first_half, second_half};
use and_parts::once::Place;

fn and_n<const N: usize>(
    d: Place,
    a: usize,
    b: usize,
    over: usize,
    tape: &[u64],
    t: usize,
    cells: &mut [u64],
) -> usize
    requires { Asked N d a b over tape.now t cells.old }
    ensures { Ran (and_of N d a b over) tape.now t cells.old cells.new result }
{
    let t = first_half(a, b, over, N, tape, t, cells);
    second_half(d, a, over, N, tape, t, cells)
}

// By the number of shares.
pub fn and_3_to_8(
    d: Place,
    a: usize,
    b: usize,
    over: usize,
    n: usize,
    tape: &[u64],
    t: usize,
    cells: &mut [u64],
) -> usize
    requires { (3 ≤ n) × Asked n d a b over tape.now t cells.old }
    ensures { Ran (and_of n d a b over) tape.now t cells.old cells.new result }
{
    match n {
        3 => and_n::<3>(d, a, b, over, tape, t, cells),
        4 => and_n::<4>(d, a, b, over, tape, t, cells),
        5 => and_n::<5>(d, a, b, over, tape, t, cells),
        6 => and_n::<6>(d, a, b, over, tape, t, cells),
        7 => and_n::<7>(d, a, b, over, tape, t, cells),
        _ => and_n::<8>(d, a, b, over, tape, t, cells),
    }
}
