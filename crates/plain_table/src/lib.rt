// The table of kinds: what cell d becomes. The plain machine goes by it; share run and the gadgets are proved against the same definition.
#![tactic(auto)]

ghost use Rattle.std.specs.Prelude.{◌≡◌, ℕ, ◌+◌, ◌%◌, ◌^◌, slice_index, slice_set};
ghost use Rattle.bits.specs.Ops.{shl_w, shr_w};
ghost use Rattle.word.specs.Table as spec;

use word::step::Step;

// A cell's word, 0 past the last cell.
pub fn read(cells: &[u64], c: usize) -> u64
    ensures { result ≡ slice_index cells.now c }
{
    cells.get(c).copied().unwrap_or(0)
}

// Puts a word into a cell; past the last cell nothing changes.
pub fn write(cells: &mut [u64], d: usize, v: u64)
    ensures { cells.new ≡ slice_set cells.old d v }
{
    if d < cells.len() {
        cells[d] = v;
    }
}

// Shifts by any number: nothing is left from 64 on.
pub fn shl(a: u64, b: u32) -> u64
    ensures { result ≡ shl_w a b }
{
    if b < 64 { a << b } else { 0 }
}

#[tactic(auto, using(bits::proofs::Shift::shr_width), unfolding(bits::specs::Ops::shr_w))]
pub fn shr(a: u64, b: u32) -> u64
    ensures { result ≡ shr_w a b }
{
    if b < 64 { a >> b } else { 0 }
}

// The wrapping sum: the carry out of bit 63 is lost on purpose.
pub fn add(x: u64, y: u64) -> u64
    ensures { result ≡ (x + y) % 2 ^ 64 }
{
    x.wrapping_add(y)
}

// The cell that a step sets.
pub fn dest(s: Step) -> usize
    ensures { result ≡ spec.dest s }
{
    match s {
        Step::Const { d, .. }
        | Step::Xor { d, .. }
        | Step::And { d, .. }
        | Step::Not { d, .. }
        | Step::Shl { d, .. }
        | Step::Shr { d, .. }
        | Step::Spread { d, .. }
        | Step::Add { d, .. }
        | Step::Rand { d } => d,
    }
}

// What that cell becomes; `next` is the next tape word.
#[tactic(auto, unfolding(bits::specs::Ops::xor_w, bits::specs::Ops::and_w, bits::specs::Ops::not_w, bits::specs::Ops::spread_w, bits::specs::Ops::add_w))]
pub fn becomes(s: Step, cells: &[u64], next: u64) -> u64
    ensures { result ≡ spec.becomes s (λ (c : ℕ). slice_index cells.now c) next }
{
    match s {
        Step::Const { k, .. } => k as u64,
        Step::Xor { a, b, .. } => read(cells, a) ^ read(cells, b),
        Step::And { a, b, .. } => read(cells, a) & read(cells, b),
        Step::Not { a, .. } => !read(cells, a),
        Step::Shl { a, b, .. } => shl(read(cells, a), b),
        Step::Shr { a, b, .. } => shr(read(cells, a), b),
        Step::Spread { a, .. } => (read(cells, a) % 2) * u64::MAX,
        Step::Add { a, b, .. } => add(read(cells, a), read(cells, b)),
        Step::Rand { .. } => next,
    }
}
