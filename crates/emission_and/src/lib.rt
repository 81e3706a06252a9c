// The share words of AND: its steps, and the wiping of its scratch cells. An inner crate of Translate: its functions ask for room and for cells in
// range.
#![tactic(auto)]

ghost use Rattle.std.specs.Prelude.{◌≤◌};
ghost use Rattle.masking.specs.Translation as translation;
ghost use Rattle.masking.specs.Translation.{and_block, and_steps, scratch, scratch_cells};
ghost use Rattle.emission_rows.specs.inner.Written.{Emits, Fits, Room, cells_on};

use emission_pairs::{EachPair, all_pairs};
use emission_rows::{Cells, each_share, put_word};
use word::step_word::StepWord;

// The cells of AND's scratch.
const Y: Cells = Cells {
    first: StepWord::Y,
    over: 1,
};

const Z: Cells = Cells {
    first: StepWord::Z,
    ..Y
};

// CONST 0 into t, and into u.
const WIPE_T: u32 = StepWord::CONST * StepWord::KIND_UNIT
    + (StepWord::T as u32) * StepWord::NUMBERS;

const WIPE_U: u32 = StepWord::CONST * StepWord::KIND_UNIT
    + (StepWord::U as u32) * StepWord::NUMBERS;

// AND's steps, before its scratch cells are wiped.
fn and_steps(d: Cells, a: Cells, b: Cells, n: u8, at: usize, out: &mut [u32]) -> usize
    requires fits { (Fits d) × (Fits a) × (Fits b) }
    requires n_bound { n ≤ 8 }
    requires room { Room out.old at (and_steps scratch n (cells_on d) (cells_on a) (cells_on b)) }
    ensures { Emits out.old at (and_steps scratch n (cells_on d) (cells_on a) (cells_on b)) out.new result }
{
    let at = each_share(StepWord::SHL, Y, b, Cells::ZERO, n, at, out);
    let at = all_pairs(EachPair::Refresh, n, at, out);
    let at = each_share(StepWord::AND, Z, a, Y, n, at, out);
    let at = all_pairs(EachPair::Products(a), n, at, out);
    each_share(StepWord::SHL, d, Z, Cells::ZERO, n, at, out)
}

// CONST 0 into AND's scratch cells: y and z of each share, t and u.
fn wiping(n: u8, at: usize, out: &mut [u32]) -> usize
    requires n_bound { n ≤ 8 }
    requires room { Room out.old at (translation.wiping (scratch_cells scratch n)) }
    ensures { Emits out.old at (translation.wiping (scratch_cells scratch n)) out.new result }
{
    let at = each_share(StepWord::CONST, Y, Cells::ZERO, Cells::ZERO, n, at, out);
    let at = each_share(StepWord::CONST, Z, Cells::ZERO, Cells::ZERO, n, at, out);
    let at = put_word(WIPE_T, at, out);
    put_word(WIPE_U, at, out)
}

// AND's share words: its steps, then the wiping.
pub fn and_block(d: Cells, a: Cells, b: Cells, n: u8, at: usize, out: &mut [u32]) -> usize
    requires fits { (Fits d) × (Fits a) × (Fits b) }
    requires n_bound { n ≤ 8 }
    requires room { Room out.old at (and_block scratch n (cells_on d) (cells_on a) (cells_on b)) }
    ensures { Emits out.old at (and_block scratch n (cells_on d) (cells_on a) (cells_on b)) out.new result }
{
    let at = and_steps(d, a, b, n, at, out);
    wiping(n, at, out)
}
