// The share words of ADD, which is laid out in XOR, AND and SHL on registers. An inner crate of Translate: its functions ask for room and for
// cells in range.
#![tactic(auto)]

ghost use Rattle.std.specs.Prelude.{◌≤◌, ◌<◌};
ghost use Rattle.masking.specs.Translation as translation;
ghost use Rattle.masking.specs.Translation.{block, scratch};
ghost use Rattle.emission_rows.specs.inner.Written.{Emits, Room};
ghost use Rattle.emission_add.specs.inner.Registers as emission;
ghost use Rattle.emission_add.specs.inner.Registers.{Register};

use emission_and::and_block;
use emission_rows::{Cells, each_share};
use word::step_word::StepWord;

// The cells of ADD's helper registers.
const H: Cells = Cells {
    first: StepWord::HELPERS,
    over: StepWord::HELPER_SHARE,
};

const G: Cells = Cells {
    first: H.first + 1,
    ..H
};

const P: Cells = Cells {
    first: H.first + 2,
    ..H
};

const T: Cells = Cells {
    first: H.first + 3,
    ..H
};

// The last shift of ADD.
const ONE: Cells = Cells { first: 1, over: 0 };

// Step j of ADD's round r, whose shift is 2^r: T = G SHL 2^r; T = P AND T; G = G XOR T; T = P SHL 2^r; P = P AND T.
fn round_step(r: u16, j: u16, n: u8, at: usize, out: &mut [u32]) -> usize
    requires r_bound { r < 6 }
    requires n_bound { n ≤ 8 }
    requires room { Room out.old at (block scratch n (emission.round_step r j)) }
    ensures { Emits out.old at (block scratch n (emission.round_step r j)) out.new result }
{
    let shift = Cells {
        first: 1 << r,
        over: 0,
    };
    match j {
        0 => each_share(StepWord::SHL, T, G, shift, n, at, out),
        1 => and_block(T, P, T, n, at, out),
        2 => each_share(StepWord::XOR, G, G, T, n, at, out),
        3 => each_share(StepWord::SHL, T, P, shift, n, at, out),
        _ => and_block(P, P, T, n, at, out),
    }
}

// Step k of the 33 that ADD is laid out in, by the Kogge-Stone adder: three first, five for each round, the last round's three, two last.
fn adder_step(d: Cells, a: Cells, b: Cells, k: u16, n: u8, at: usize, out: &mut [u32]) -> usize
    requires register { (Register d) × (Register a) × (Register b) }
    requires k_bound { k < 33 }
    requires n_bound { n ≤ 8 }
    requires room { Room out.old at (block scratch n (emission.adder_step d.first a.first b.first k)) }
    ensures { Emits out.old at (block scratch n (emission.adder_step d.first a.first b.first k)) out.new result }
{
    match k {
        0 => each_share(StepWord::XOR, H, a, b, n, at, out),
        1 => and_block(G, a, b, n, at, out),
        2 => each_share(StepWord::SHL, P, H, Cells::ZERO, n, at, out),
        31 => each_share(StepWord::SHL, T, G, ONE, n, at, out),
        32 => each_share(StepWord::XOR, d, H, T, n, at, out),
        _ => round_step((k - 3) / 5, (k - 3) % 5, n, at, out),
    }
}

// ADD's steps one after another.
pub fn adding(d: Cells, a: Cells, b: Cells, n: u8, at: usize, out: &mut [u32]) -> usize
    requires register { (Register d) × (Register a) × (Register b) }
    requires n_bound { n ≤ 8 }
    requires room { Room out.old at (translation.blocks scratch n (translation.adding d.first a.first b.first)) }
    ensures { Emits out.old at (translation.blocks scratch n (translation.adding d.first a.first b.first)) out.new result }
{
    let mut at = at;
    for k in 0..33 {
        at = adder_step(d, a, b, k, n, at, out);
    }
    at
}
