// The work slice of a call over any plan: operands placed, the result copied out, and zeros again.
#![tactic(auto)]

ghost use Rattle.std.specs.Prelude.{◌≡◌, ◌≤◌, length, replicate};
ghost use Rattle.masked_call.specs.Shares.{placed_in, shares_of};

use word::step_word::StepWord;

// Words cleared at a time. The C library stores a longer run of zeros byte by byte.
const PART: usize = 64;

// A piece of the slice, part by part. By hand: what `chunks_mut` promises says nothing of the slice once its chunks are written.
fn clear_by_parts(cells: &mut [u64])
    ensures { cells.new ≡ replicate (length cells.old) 0 }
{
    let mut at = 0;
    while at < cells.len() {
        let end = at + (cells.len() - at).min(PART);
        cells[at..end].fill(0);
        at = end;
    }
}

// All cells, in two pieces that meet at `cut`, a place known only at run time: of a length that it knows the compiler makes one run.
pub fn clear(cells: &mut [u64], cut: usize)
    requires { cut ≤ length cells.old }
    ensures { cells.new ≡ replicate (length cells.old) 0 }
{
    let all = cells.len();
    clear_by_parts(&mut cells[0..cut]);
    clear_by_parts(&mut cells[cut..all]);
}

// Operands' shares into registers 0 and 1, in turn: one operand's share 1 does not follow its share 0 through a register.
pub fn place(x: &[u64], y: &[u64], cells: &mut [u64])
    requires { (length y.now ≡ length x.now) × (length x.now ≤ 8) × (length cells.old ≡ 512) }
    ensures { cells.new ≡ placed_in 1 0 y.now (placed_in 0 0 x.now cells.old) }
{
    for i in 0..x.len() {
        cells[StepWord::REGISTERS * i] = x[i];
        cells[StepWord::REGISTERS * i + 1] = y[i];
    }
}

// A cell that is zero after every AND: it goes through the register between two shares, so that no share follows another there. The compiler, which does not
// know that the slices are apart, keeps the store (tests/leakage).
const WIPED: usize = StepWord::T as usize;

// The shares of register 2.
fn copy_out(cells: &[u64], res: &mut [u64])
    requires { (length res.old ≤ 8) × (length cells.now ≡ 512) }
    ensures { res.new ≡ shares_of (length res.old) 2 cells.now }
{
    for i in 0..res.len() {
        res[i] = cells[WIPED];
        res[i] = cells[StepWord::REGISTERS * i + 2];
    }
}

// The result copied out, and zeros again.
pub fn end(work: &mut [u64], res: &mut [u64])
    requires { (length res.old ≤ 8) × (length work.old ≡ 512) }
    ensures { (res.new ≡ shares_of (length res.old) 2 work.old) × (work.new ≡ replicate (length work.old) 0) }
{
    copy_out(work, res);
    clear(work, StepWord::REGISTERS * res.len());
}
