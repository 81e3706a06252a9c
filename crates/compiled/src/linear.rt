// Linear plan words on one share.
ghost use Rattle.std.specs.Prelude.{◌≡◌, [], ◌∷◌, ◌+◌, ◌%◌, ◌<◌, length};
ghost use Rattle.word.specs.Encoding.{kind_of};
ghost use Rattle.compiled.specs.inner.OnShare.{linear_word, on_share, on_share_all};

use word::step_word::StepWord;

// The word of share i of d, from those of a and b. The last arm is SPREAD.
fn value(w: u32, i: usize, x: u64, y: u64) -> u64
    ensures { result ≡ linear_word w i x y }
{
    let kind = w >> StepWord::KIND_AT;
    match kind {
        StepWord::CONST => {
            if i == 0 {
                return (w % StepWord::NUMBERS) as u64;
            }
            0
        }
        StepWord::XOR => x ^ y,
        StepWord::NOT => {
            if i == 0 {
                return !x;
            }
            // A copy: the translation's step for these shares is SHL by 0.
            x << 0
        }
        StepWord::SHL => x << (w % StepWord::SHIFTS),
        StepWord::SHR => x >> (w % StepWord::SHIFTS),
        _ => (x % 2) * u64::MAX,
    }
}

// A linear word on share i.
pub fn linear(w: u32, i: usize, cells: &mut [u64])
    requires { (i < 8) × (length cells.old ≡ 512) }
    ensures { cells.new ≡ on_share i w cells.old }
{
    let s = StepWord::REGISTERS * i;
    let d = s + ((w >> StepWord::D_AT) % StepWord::PLAN_CELLS) as usize;
    let a = s + ((w >> StepWord::A_AT) % StepWord::PLAN_CELLS) as usize;
    let b = s + (w % StepWord::PLAN_CELLS) as usize;
    cells[d] = value(w, i, cells[a], cells[b]);
}

// Two in a row. Calls and no loop over an array of words: tried as a loop, the compiler kept it, and took each word apart at run time.
pub fn two(w0: u32, w1: u32, i: usize, cells: &mut [u64])
    requires { (i < 8) × (length cells.old ≡ 512) }
    ensures { cells.new ≡ on_share_all i (w0 ∷ w1 ∷ []) cells.old }
{
    linear(w0, i, cells);
    linear(w1, i, cells);
}

// Four in a row.
pub fn four(w0: u32, w1: u32, w2: u32, w3: u32, i: usize, cells: &mut [u64])
    requires { (i < 8) × (length cells.old ≡ 512) }
    ensures { cells.new ≡ on_share_all i (w0 ∷ w1 ∷ w2 ∷ w3 ∷ []) cells.old }
{
    two(w0, w1, i, cells);
    two(w2, w3, i, cells);
}

// Eight in a row.
pub fn eight(
    w0: u32,
    w1: u32,
    w2: u32,
    w3: u32,
    w4: u32,
    w5: u32,
    w6: u32,
    w7: u32,
    i: usize,
    cells: &mut [u64],
)
    requires { (i < 8) × (length cells.old ≡ 512) }
    ensures { cells.new ≡ on_share_all i (w0 ∷ w1 ∷ w2 ∷ w3 ∷ w4 ∷ w5 ∷ w6 ∷ w7 ∷ []) cells.old }
{
    four(w0, w1, w2, w3, i, cells);
    four(w4, w5, w6, w7, i, cells);
}

// Sixteen in a row.
pub fn sixteen(
    w0: u32,
    w1: u32,
    w2: u32,
    w3: u32,
    w4: u32,
    w5: u32,
    w6: u32,
    w7: u32,
    w8: u32,
    w9: u32,
    w10: u32,
    w11: u32,
    w12: u32,
    w13: u32,
    w14: u32,
    w15: u32,
    i: usize,
    cells: &mut [u64],
)
    requires { (i < 8) × (length cells.old ≡ 512) }
    ensures { cells.new ≡ on_share_all i (w0 ∷ w1 ∷ w2 ∷ w3 ∷ w4 ∷ w5 ∷ w6 ∷ w7 ∷ w8 ∷ w9 ∷ w10 ∷ w11 ∷ w12 ∷ w13 ∷ w14 ∷ w15 ∷ []) cells.old }
{
    eight(w0, w1, w2, w3, w4, w5, w6, w7, i, cells);
    eight(w8, w9, w10, w11, w12, w13, w14, w15, i, cells);
}

// A SHR word whose shift number is 0 with q in its place: rows that differ in a number call this with it. As `linear(w + q, ..)` the compiler
// would take the word apart at run time. A function of its own in the machine code too: a shift and a SPREAD together become a test of one bit, which leaves
// the share in its register for the next share to be written over.
#[inline(never)]
pub fn shifted(w: u32, q: u32, i: usize, cells: &mut [u64])
    requires { (kind_of w ≡ 6) × (w % 512 ≡ 0) × (q < 64) × (i < 8) × (length cells.old ≡ 512) }
    ensures { cells.new ≡ on_share i (w + q) cells.old }
{
    let s = StepWord::REGISTERS * i;
    let d = s + ((w >> StepWord::D_AT) % StepWord::PLAN_CELLS) as usize;
    let a = s + ((w >> StepWord::A_AT) % StepWord::PLAN_CELLS) as usize;
    cells[d] = cells[a] >> q;
}
