// What is done once per share.
ghost use Rattle.std.specs.Prelude.{◌≡◌, map, ◌≤◌, ◌<◌, length};
ghost use Rattle.masking.specs.Translation.{shares};
ghost use Rattle.and_parts.specs.inner.Effects.{InCells, Shifts, Still, at, once_step, value_of};

// Where the shares of a register, or of AND's scratch, lie: share i is cell base + i * stride.
#[derive(Clone, Copy)]
pub struct Place {
    pub base: usize,
    pub stride: usize,
}

impl Place {
    // Share i's cell.
    pub fn cell(self, i: usize) -> usize
        requires { (i < 8) × InCells self }
        ensures { (result ≡ at self i) × (result < 512) }
    {
        self.base + i * self.stride
    }
}

// What a share's cell becomes, of the same share of two operands.
#[derive(Clone, Copy)]
pub enum Op {
    Xor,
    Shl(u32),
}

fn value(op: Op, x: u64, y: u64) -> u64
    requires { Shifts op }
    ensures { result ≡ value_of op x y }
{
    match op {
        Op::Xor => x ^ y,
        Op::Shl(k) => x << k,
    }
}

// d = a op b in each of n shares, rising from 0.
pub fn each(op: Op, d: Place, a: Place, b: Place, n: usize, cells: &mut [u64])
    requires { (n ≤ 8) × (length cells.old ≡ 512) × Shifts op × InCells d × InCells a × InCells b }
    ensures { Still (map (once_step op (at d) (at a) (at b)) (shares n)) cells.old cells.new }
{
    for i in 0..n {
        cells[d.cell(i)] = value(op, cells[a.cell(i)], cells[b.cell(i)]);
    }
}
