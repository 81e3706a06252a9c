// The plain operations against the machine's own binary64, over edges and at random, where the documents and IEEE 754 agree, and against
// their own words where they depart from IEEE 754. Writes how many pairs agree, how many are such, how many have an operand that the
// two read apart and were skipped, and how many differ from what they should be.
#![tactic(auto)]

mod native;
mod operands;
mod tally;

use native::Outcome;
use std::io;
use tally::Tally;

// Pairs for each operation: those at edges, and 1,600,000 at random.
const PAIRS: u64 = 1655040;

#[derive(Clone, Copy, PartialEq, Eq)]
enum Operation {
    Product,
    Sum,
    Floor,
    Truncation,
    Nearest,
}

impl Operation {
    const ALL: [Operation; 5] = [
        Operation::Product,
        Operation::Sum,
        Operation::Floor,
        Operation::Truncation,
        Operation::Nearest,
    ];

    fn name(self) -> &'static str {
        match self {
            Operation::Product => "product",
            Operation::Sum => "sum",
            Operation::Floor => "floor",
            Operation::Truncation => "truncation",
            Operation::Nearest => "nearest",
        }
    }

    // The first of a pair, or the only operand.
    fn operand(self, i: u64, r: u64) -> u64 {
        match self {
            Operation::Product | Operation::Sum => operands::first(i, r),
            Operation::Floor | Operation::Truncation | Operation::Nearest => operands::only(i, r),
        }
    }

    // What the comparison finds on a pair; the operations of one operand take its first alone.
    fn outcome(self, a: u64, b: u64) -> Outcome {
        match self {
            Operation::Product => native::product(a, b),
            Operation::Sum => native::sum(a, b),
            Operation::Floor => native::floor(a),
            Operation::Truncation => native::truncate(a),
            Operation::Nearest => native::nearest(a),
        }
    }

    // Pairs at edges, then pairs at random.
    fn all(self) -> Tally {
        let mut tally = Tally::default();
        let mut seed: u64 = 0x9e37_79b9_7f4a_7c15;
        for i in 0..PAIRS {
            let r = test_words::next(seed);
            let a = self.operand(i, r);
            seed = test_words::next(r);
            tally.note(self.outcome(a, operands::second(i, a, seed)));
        }
        tally
    }
}

fn main(rt: HostRuntime) -> io::Result<()> {
    for operation in Operation::ALL {
        println!(rt; "{}: {}", operation.name(), operation.all())?;
    }
    Ok(())
}
