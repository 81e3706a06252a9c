// d = a AND b for two shares, in locals: no share of y and z is ever in its cell.
#![tactic(auto)]

ghost use Rattle.and_parts.specs.inner.Effects.{Ran};
ghost use Rattle.and_many.specs.inner.Asked.{Asked, and_of};

use and_parts::once::Place;
use and_parts::scratch::{T, U, Y};
use and_parts::wipe::wipe;

// Share 1 of a and b lies `over` cells behind share 0: a constant to each caller.
pub fn and_2(
    d: Place,
    a: usize,
    b: usize,
    over: usize,
    tape: &[u64],
    t: usize,
    cells: &mut [u64],
) -> usize
    requires { Asked 2 d a b over tape.now t cells.old }
    ensures { Ran (and_of 2 d a b over) tape.now t cells.old cells.new result }
{
    // Not to be reordered (tests/leakage). The tape's word is stored, so that it is in a register before b's share 0 meets it there, and no share is loaded over
    // another. Between two stores to a cell a tape word is read, which may lie there for all that the compiler knows, so that it keeps the first: s and w stay
    // words of their own. In the register of s the tape's word stays behind, in that of share 1 of d the two together, since the run behind begins with share 0.
    let r = tape[t];
    cells[Y] = r;
    let y1 = cells[b + over] ^ tape[t];
    let y0 = cells[b] ^ r;
    let a1 = cells[a + over];
    let v = a1 & y1;
    let a0 = cells[a];
    let s = tape[t + 1] ^ (a0 & y1);
    cells[T] = s;
    let w = s ^ (a1 & y0);
    cells[U] = w;
    cells[T] = tape[t];
    let p = d.base;
    let q = p + d.stride;
    let d1 = v ^ w;
    cells[q] = d1;
    cells[T] = d1 ^ tape[t];
    cells[p] = (a0 & y0) ^ tape[t + 1];
    wipe(2, cells);
    t + 2
}
