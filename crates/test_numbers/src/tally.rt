// What comparisons found, counted.
use crate::native::Outcome;
use std::fmt;

#[derive(Clone, Copy, Default)]
pub struct Tally {
    same: u64,
    apart: u64,
    skipped: u64,
    different: u64,
}

impl Tally {
    // One more of its outcome. The counts cannot reach 2^64.
    pub fn note(&mut self, outcome: Outcome) {
        let count = match outcome {
            Outcome::Same => &mut self.same,
            Outcome::Apart => &mut self.apart,
            Outcome::Skipped => &mut self.skipped,
            Outcome::Different => &mut self.different,
        };
        *count = count.wrapping_add(1);
    }
}

impl fmt::Display for Tally {
    fn fmt<W: fmt::Write>(&self, f: &mut fmt::Formatter<W>) -> fmt::Result {
        write!(f, "as IEEE 754 {}", self.same)?;
        write!(f, ", apart from it as the documents say {}", self.apart)?;
        write!(f, ", skipped {}", self.skipped)?;
        write!(f, ", different {}", self.different)
    }
}
