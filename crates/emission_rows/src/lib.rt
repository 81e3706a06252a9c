// What is written once per share, by templates: of the n words in a row each is the last one and the same number more.
#![tactic(auto)]

ghost use Rattle.std.specs.Prelude.{[], ◌∷◌, ◌+◌, ◌-◌, ◌≤◌, ◌<◌, length};
ghost use Rattle.emission_rows.specs.inner.Written.{EachFits, Rises, Words, each_word, row_of};

use word::parts::put;

// Where the shares of a register, a helper or a scratch cell lie: share i's cell is first + over * i. A field that is no cell stays as it is.
#[derive(Clone, Copy)]
pub struct Cells {
    pub first: u16,
    pub over: u16,
}

impl Cells {
    // A field that is 0 in each share.
    pub const ZERO: Cells = Cells { first: 0, over: 0 };
}

// Writes one word; the answer is the next place.
// Slice and place are handed on side by side: each function on a struct that holds both would need a clause that it still holds the same slice.
pub fn put_word(w: u32, at: usize, out: &mut [u32]) -> usize
    requires { at < length out.old }
    ensures { Words out.old at (w ∷ []) out.new result }
{
    out[at] = w;
    at + 1
}

// Writes n words in a row, two a turn: where the compiler knows that n is at most 8, a loop of one word becomes one of masked vectors, which
// takes more.
pub fn row(first: u32, over: u32, n: u8, at: usize, out: &mut [u32]) -> usize
    requires rises { Rises first over n }
    requires n_in_bounds { at + n ≤ length out.old }
    ensures { Words out.old at (row_of first over n) out.new result }
{
    let mut at = at;
    let mut w = first;
    for i in 0..n / 2 {
        at = put_word(w, at, out);
        at = put_word(w + over, at, out);
        w += over + over;
    }
    if n % 2 == 0 {
        return at;
    }
    put_word(w, at, out)
}

// Writes share 0's word, and the others' in a row.
pub fn alone(first: u32, other: u32, over: u32, n: u8, at: usize, out: &mut [u32]) -> usize
    requires le_n { 1 ≤ n }
    requires rises { Rises other over n }
    requires n_in_bounds { at + n ≤ length out.old }
    ensures { Words out.old at (first ∷ row_of other over (n - 1)) out.new result }
{
    let at = put_word(first, at, out);
    row(other, over, n - 1, at, out)
}

// Writes a word of kind k for each share, shares rising from 0: from share to share it is the fields' steps more, put together as a word of
// kind 0.
pub fn each_share(k: u32, d: Cells, a: Cells, b: Cells, n: u8, at: usize, out: &mut [u32]) -> usize
    requires each_fits { EachFits k d a b n }
    requires n_in_bounds { at + n ≤ length out.old }
    ensures { Words out.old at (each_word k d a b n) out.new result }
{
    let first = put(k, d.first, a.first, b.first);
    let over = put(0, d.over, a.over, b.over);
    row(first, over, n, at, out)
}
