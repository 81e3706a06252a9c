// The operations on shares against the plain ones: every pair of the edges and drawn pairs, for n = 2..8. Writes for each n how many results
// differ; a call that is turned down counts as different.
#![tactic(auto)]

ghost use Rattle.std.specs.Prelude.{◌≤◌};

use checks::refusal::{Counts, Refusal};
use std::io;

// The operands of document 01's table, the least and greatest of each kind, and where rounding to a whole number turns.
const EDGES: [u64; 26] = [
    0x3ff8000000000000,
    0x0010000000000000,
    0x3fe0000000000000,
    0x001fffffffffffff,
    0x7fefffffffffffff,
    0x4000000000000000,
    0x3ff0000000000001,
    0x3ca0000000000000,
    0x8000000000000000,
    0xbff0000000000000,
    0x0000000000000001,
    0xc32fffffffffffff,
    0x4330000000000001,
    0xffffffffffffffff,
    0x7ff0000000000000,
    0xbfefffffffffffff,
    0xbfe0000000000000,
    0x3fdfffffffffffff,
    0xbff8000000000000,
    0x4004000000000000,
    0xc004000000000000,
    0x432fffffffffffff,
    0x4320000000000001,
    0x800fffffffffffff,
    0x8000000000000001,
    0x8010000000000000,
];

// Pairs drawn at random for each n.
const DRAWN: u64 = 1000;

fn joined(shares: &[u64]) -> u64 {
    split_join::join(shares).unwrap_or(0)
}

#[derive(Clone, Copy)]
enum Operation {
    Product,
    Sum,
    Floor,
    Truncate,
    Nearest,
}

impl Operation {
    const ALL: [Operation; 5] = [
        Operation::Product,
        Operation::Sum,
        Operation::Floor,
        Operation::Truncate,
        Operation::Nearest,
    ];

    // On plain words; the operations from floor on take the first operand alone.
    fn plain(self, a: u64, b: u64) -> u64 {
        match self {
            Operation::Product => binary64_plain::product(a, b),
            Operation::Sum => binary64_plain::sum(a, b),
            Operation::Floor => binary64_whole::floor(a),
            Operation::Truncate => binary64_whole::truncate(a),
            Operation::Nearest => binary64_whole::nearest(a),
        }
    }

    // On shares.
    fn on_shares(
        self,
        x: &[u64],
        y: &[u64],
        tape: &[u64],
        res: &mut [u64],
    ) -> Result<Counts, Refusal> {
        let mut work = [0u64; 512];
        match self {
            Operation::Product => operations::product(x, y, res, &mut work, tape),
            Operation::Sum => operations::sum(x, y, res, &mut work, tape),
            Operation::Floor => operations::floor(x, res, &mut work, tape),
            Operation::Truncate => operations::truncate(x, res, &mut work, tape),
            Operation::Nearest => operations::nearest(x, res, &mut work, tape),
        }
    }
}

// 0 where the call is done and joins to the plain result, else 1.
fn lent_off(
    op: Operation,
    a: u64,
    b: u64,
    x: &[u64],
    y: &[u64],
    tape: &[u64],
    res: &mut [u64],
) -> u64 {
    let done = op.on_shares(x, y, tape, res).is_ok();
    u64::from(!(done && joined(res) == op.plain(a, b)))
}

// Whether an operation is off on shares x and y of a and b.
fn operation_off(op: Operation, n: usize, a: u64, b: u64, x: &[u64], y: &[u64], tape: &[u64]) -> u64
    requires { n ≤ 8 }
{
    let mut result = [0u64; 8];
    lent_off(op, a, b, x, y, tape, &mut result[..n])
}

// How many of the operations are off on shares x and y of a and b.
fn operations_off(n: usize, a: u64, b: u64, x: &[u64], y: &[u64], tape: &[u64]) -> u64
    requires { n ≤ 8 }
{
    let mut count: u64 = 0;
    for op in Operation::ALL {
        count = count.wrapping_add(operation_off(op, n, a, b, x, y, tape));
    }
    count
}

// The same, with a pair split into the lent slices, of n words each.
fn split_off(
    n: usize,
    a: u64,
    b: u64,
    tape: &[u64],
    masks: &[u64],
    x: &mut [u64],
    y: &mut [u64],
) -> u64
    requires { n ≤ 8 }
{
    let _ = split_join::split(a, masks, x);
    let _ = split_join::split(b, tape, y);
    operations_off(n, a, b, x, y, tape)
}

// The same, for a pair.
fn pair_off(n: usize, a: u64, b: u64, tape: &[u64], masks: &[u64]) -> u64
    requires { n ≤ 8 }
{
    let mut x = [0u64; 8];
    let mut y = [0u64; 8];
    split_off(n, a, b, tape, masks, &mut x[..n], &mut y[..n])
}

// Every pair of the edges.
fn edges_off(n: usize, tape: &[u64], masks: &[u64]) -> u64
    requires { n ≤ 8 }
{
    let mut count: u64 = 0;
    for a in &EDGES {
        for b in &EDGES {
            count = count.wrapping_add(pair_off(n, *a, *b, tape, masks));
        }
    }
    count
}

fn drawn_off(n: usize, tape: &[u64], masks: &[u64]) -> u64
    requires { n ≤ 8 }
{
    let mut count: u64 = 0;
    let mut seed: u64 = 0x9e37_79b9_7f4a_7c15;
    for _ in 0..DRAWN {
        let a = test_words::next(seed);
        seed = test_words::next(a);
        count = count.wrapping_add(pair_off(n, a, seed, tape, masks));
    }
    count
}

fn line(rt: &HostRuntime, n: usize, edges: u64, drawn: u64) -> io::Result<()> {
    println!(rt; "n {n} results over edges that differ {edges} over drawn pairs {drawn}")
}

fn main(rt: HostRuntime) -> io::Result<()> {
    let mut tape = [0u64; 5000];
    test_words::fill(77, &mut tape);
    let mut masks = [0u64; 8];
    test_words::fill(99, &mut masks);
    for n in 2..9usize {
        line(
            &rt,
            n,
            edges_off(n, &tape, &masks),
            drawn_off(n, &tape, &masks),
        )?;
    }
    Ok(())
}
