// Share runs in a row with odd budgets against one run in a go, joined registers against the plain run, and AND's scratch cells against
// zero, for a plan of every kind and n = 2..8. Writes for each n the counts, what differs and what is left.
#![tactic(auto)]

use checks::refusal::Counts;
use std::{fmt, io};

// CONST, XOR, AND, NOT, SHL, SHR, SPREAD and ADD, with distinct and with equal registers.
const PLAN: [u32; 12] = [
    0x100c02bc, 0x20080001, 0x30100403, 0x40140800, 0x50180a07, 0x601c0c03, 0x70200e00, 0x80240001,
    0x30040201, 0x80241209, 0x30281208, 0x20281409,
];

// More than the longest program here, with a budget of 0 among them. The runs at 4 and 8 are told another count, and so do nothing.
const BUDGETS: [usize; 13] = [1, 3, 0, 5, 23, 17, 101, 999, 47, 1, 2001, 3333, 7777];

// How many words of two slices differ, by place.
fn different(a: &[u64], b: &[u64]) -> usize {
    a.iter().zip(b).filter(|(x, y)| **x != **y).count()
}

// Register r of n shares joined: cells 32i + r.
fn joined(cells: &[u64], n: usize, r: usize) -> u64 {
    cells
        .iter()
        .skip(r)
        .step_by(32)
        .take(n)
        .fold(0, |word, share| word ^ *share)
}

fn join_all(cells: &[u64], n: usize) -> [u64; 32] {
    let mut registers = [0; 32];
    for (r, register) in registers.iter_mut().enumerate() {
        *register = joined(cells, n, r);
    }
    registers
}

// Whether a cell is AND's scratch for n shares: y and z from 256 and 264 on, t and u at 272 and 273.
fn is_scratch(at: usize, n: usize) -> bool {
    match at {
        256..=271 => at % 8 < n,
        272 | 273 => true,
        _ => false,
    }
}

// How many of AND's scratch cells are not zero.
fn left_over(cells: &[u64], n: usize) -> usize {
    cells
        .iter()
        .enumerate()
        .filter(|(at, cell)| is_scratch(*at, n) && **cell != 0)
        .count()
}

// What the runs of one share count come to.
#[derive(Drop)]
struct Compared {
    counts: Counts,
    split: usize,
    plain: usize,
    left: usize,
}

impl fmt::Display for Compared {
    fn fmt<W: fmt::Write>(&self, f: &mut fmt::Formatter<W>) -> fmt::Result {
        write!(f, "words {} tape {}", self.counts.words, self.counts.tape)?;
        write!(f, " cells that differ {}", self.split)?;
        write!(f, " registers that differ {}", self.plain)?;
        write!(f, " scratch cells left {}", self.left)
    }
}

// 512 cells at random, the same ones for each run of n shares.
fn start(n: usize) -> [u64; 512] {
    let mut cells = [0; 512];
    test_words::fill(n as u64, &mut cells);
    cells
}

// The cells that differ from runs in a row over the same start.
fn split_off(n: usize, program: &[u32], tape: &[u64], whole: &[u64]) -> usize {
    let mut parts = start(n);
    let mut counts = [n; 13];
    counts[4] = 9;
    counts[8] = if n == 2 { 3 } else { 2 };
    share_in_a_row::runs_in_a_row(program, 0, tape, 0, &counts, &BUDGETS, &mut parts);
    different(whole, &parts)
}

// The registers that join to something else than the plan gives unsplit.
fn plain_off(n: usize, whole: &[u64]) -> usize {
    let mut plain = join_all(&start(n), n);
    let _ = plain::plain_run(&PLAN, &mut plain);
    different(&plain, &join_all(whole, n))
}

// One share count: a run in a go, the same in a row, and the plan unsplit.
fn compare(n: usize, program: &[u32], tape: &[u64]) -> Compared {
    let mut whole = start(n);
    let run = share_run::run::share_run(n, program, 0, tape, 0, program.len(), &mut whole);
    Compared {
        counts: run.unwrap_or(Counts::NONE),
        split: split_off(n, program, tape, &whole),
        plain: plain_off(n, &whole),
        left: left_over(&whole, n),
    }
}

fn main(rt: HostRuntime) -> io::Result<()> {
    let mut tape = [0u64; 2000];
    test_words::fill(77, &mut tape);
    let mut buffer = [0u32; 10000];
    for n in 2..9usize {
        let counts = translation::translate::translate(n, &PLAN, &mut buffer).unwrap_or(
            Counts::NONE,
        );
        if let Some(program) = buffer.get(..counts.words) {
            println!(rt; "n {n} {}", compare(n, program, &tape))?;
        }
    }
    Ok(())
}
