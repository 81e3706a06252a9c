// d = a AND b on shares, by their number.
ghost use Rattle.and_parts.specs.inner.Effects.{Ran};
ghost use Rattle.and_many.specs.inner.Asked.{Asked, and_of};

use and_many::counts::and_3_to_8;
use and_parts::once::Place;
use and_two::and_2;

// For operands whose shares lie OVER cells apart, from place t of the tape on; the answer is the next place. The scratch cells are zero afterwards. OVER is
// 32 for registers of plans and 8 for ADD's helper registers, from cell 288 on. A caller hands over helper registers a and b so that the compiler does not
// know them: at cells that it knows it would not keep the order that `cross_row` asks for.
pub fn and_of<const OVER: usize>(
    d: Place,
    a: usize,
    b: usize,
    n: usize,
    tape: &[u64],
    t: usize,
    cells: &mut [u64],
) -> usize
    requires { Asked n d a b OVER tape.now t cells.old }
    ensures { Ran (and_of n d a b OVER) tape.now t cells.old cells.new result }
{
    if n == 2 {
        return and_2(d, a, b, OVER, tape, t, cells);
    }
    and_3_to_8(d, a, b, OVER, n, tape, t, cells)
}
