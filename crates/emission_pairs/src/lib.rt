// What is written for pairs of shares, by templates: share i's word is share 0's and i times the same number more.
#![tactic(auto)]

ghost use Rattle.std.specs.Prelude.{◌≡◌, [], ◌∷◌, ◌+◌, ◌-◌, ◌*◌, ◌^◌, ◌≤◌, ◌<◌, length};
ghost use Rattle.word.specs.declared.step.Step.TheVariants.{Xor, And};
ghost use Rattle.word.specs.Encoding.{word_of};
ghost use Rattle.masking.specs.Translation.{pairs, pairs_of, shares, up_from};
ghost use Rattle.emission_rows.specs.inner.Written.{Emits, Fits, Room, Words, cells_on};
ghost use Rattle.emission_pairs.specs.inner.Pairs.{PairFits, pair_steps};
ghost use Rattle.emission_pairs.specs.declared.EachPair.TheVariants.{Refresh, Products};

use emission_rows::{Cells, put_word};
use word::step_word::StepWord;

// What AND does for each pair: a fresh word into both shares of y, or the cross products with the shares of a.
#[derive(Clone, Copy)]
pub enum EachPair {
    Refresh,
    Products(Cells),
}

// Fields d and a: what a word is more where both are one more.
const BOTH: u32 = StepWord::NUMBERS + StepWord::FIELD;

// RAND t
const RAND_T: u32 = StepWord::RAND * StepWord::KIND_UNIT + (StepWord::T as u32) * StepWord::NUMBERS;

// t XOR u
const XOR_T: u32 = StepWord::XOR * StepWord::KIND_UNIT
    + (StepWord::T as u32) * BOTH
    + (StepWord::U as u32);

// y_0 XOR t and z_0 XOR t
const XOR_Y: u32 = StepWord::XOR * StepWord::KIND_UNIT
    + (StepWord::Y as u32) * BOTH
    + (StepWord::T as u32);

const XOR_Z: u32 = StepWord::XOR * StepWord::KIND_UNIT
    + (StepWord::Z as u32) * BOTH
    + (StepWord::T as u32);

// u = cell 0 AND y_0
const AND_U: u32 = StepWord::AND * StepWord::KIND_UNIT
    + (StepWord::U as u32) * StepWord::NUMBERS
    + (StepWord::Y as u32);

// Writes a word whose fields d and a are i more.
fn put_up(w: u32, i: u8, at: usize, out: &mut [u32]) -> usize
    requires w_bound { w < 2 ^ 31 }
    requires i_bound { i < 8 }
    requires at_in_bounds { at < length out.old }
    ensures { Words out.old at ((w + i * 262656) ∷ []) out.new result }
{
    put_word(w + (i as u32) * BOTH, at, out)
}

// u = a_i AND y_j
fn and_u(a: Cells, i: u8, j: u8) -> u32
    requires fits { Fits a }
    requires i_bound { i < 8 }
    requires j_bound { j < 8 }
    ensures { result ≡ word_of (And 273 (cells_on a i) (256 + j)) }
{
    let cell = a.first + a.over * (i as u16);
    AND_U + (cell as u32) * StepWord::FIELD + (j as u32)
}

// One product: u = a_i AND y_j, t XOR u.
fn put_product(a: Cells, i: u8, j: u8, at: usize, out: &mut [u32]) -> usize
    requires fits { Fits a }
    requires i_bound { i < 8 }
    requires j_bound { j < 8 }
    requires at_in_bounds { at + 1 < length out.old }
    ensures { Emits out.old at (And 273 (cells_on a i) (256 + j) ∷ Xor 272 272 273 ∷ []) out.new result }
{
    let at = put_word(and_u(a, i, j), at, out);
    put_word(XOR_T, at, out)
}

// A fresh word into y_i and y_j.
fn refresh_pair(i: u8, j: u8, at: usize, out: &mut [u32]) -> usize
    requires i_bound { i < 8 }
    requires j_bound { j < 8 }
    requires room { Room out.old at (pair_steps Refresh (record { lo = i; hi = j } ∷ [])) }
    ensures { Emits out.old at (pair_steps Refresh (record { lo = i; hi = j } ∷ [])) out.new result }
{
    let at = put_word(RAND_T, at, out);
    let at = put_up(XOR_Y, i, at, out);
    put_up(XOR_Y, j, at, out)
}

// The cross products of a pair into z_i and z_j, behind a fresh word.
fn product_pair(a: Cells, i: u8, j: u8, at: usize, out: &mut [u32]) -> usize
    requires fits { Fits a }
    requires i_bound { i < 8 }
    requires j_bound { j < 8 }
    requires room { Room out.old at (pair_steps (Products a) (record { lo = i; hi = j } ∷ [])) }
    ensures { Emits out.old at (pair_steps (Products a) (record { lo = i; hi = j } ∷ [])) out.new result }
{
    let at = put_word(RAND_T, at, out);
    let at = put_up(XOR_Z, i, at, out);
    let at = put_product(a, i, j, at, out);
    let at = put_product(a, j, i, at, out);
    put_up(XOR_Z, j, at, out)
}

// Writes what the pair of shares i and j gets.
fn one_pair(p: EachPair, i: u8, j: u8, at: usize, out: &mut [u32]) -> usize
    requires pair_fits { PairFits p }
    requires i_bound { i < 8 }
    requires j_bound { j < 8 }
    requires room { Room out.old at (pair_steps p (record { lo = i; hi = j } ∷ [])) }
    ensures { Emits out.old at (pair_steps p (record { lo = i; hi = j } ∷ [])) out.new result }
{
    match p {
        EachPair::Refresh => refresh_pair(i, j, at, out),
        EachPair::Products(a) => product_pair(a, i, j, at, out),
    }
}

// The pairs of share i with the shares above it.
fn pairs_of(p: EachPair, i: u8, n: u8, at: usize, out: &mut [u32]) -> usize
    requires pair_fits { PairFits p }
    requires i_lt_n { i < n }
    requires n_bound { n ≤ 8 }
    requires room { Room out.old at (pair_steps p (pairs_of i (up_from (i + 1) (n - (i + 1))))) }
    ensures { Emits out.old at (pair_steps p (pairs_of i (up_from (i + 1) (n - (i + 1))))) out.new result }
{
    let mut at = at;
    for j in (i + 1)..n {
        at = one_pair(p, i, j, at, out);
    }
    at
}

// All pairs i < j, by i and then j.
pub fn all_pairs(p: EachPair, n: u8, at: usize, out: &mut [u32]) -> usize
    requires pair_fits { PairFits p }
    requires n_bound { n ≤ 8 }
    requires room { Room out.old at (pair_steps p (pairs (shares n))) }
    ensures { Emits out.old at (pair_steps p (pairs (shares n))) out.new result }
{
    let mut at = at;
    for i in 0..n {
        at = pairs_of(p, i, n, at, out);
    }
    at
}
