// Split and join: a word to its shares and back.
#![tactic(auto)]

ghost use Rattle.std.specs.Prelude.{◌≡◌, ◌-◌, ◌+◌, ◌≤◌, ◌<◌, length, take};
ghost use Rattle.checks.specs.Answers.{answer_of};
ghost use Rattle.split_join.specs.SplitJoin.{xor_all, split_of, split_answer, split_out, join_answer, joined_of, joined_word, SplitJoins};

use checks::answer::Answer;
use checks::refusal::{Counts, Refusal};
use checks::share_count::is_share_count;

// The answer to n shares and a number of tape words: the turn-downs in number order.
#[tactic(auto, using(word::proofs::Small::share_range), unfolding(crate::specs::SplitJoin::split_answer))]
fn split_answer(n: usize, tape: usize) -> Result<Counts, Refusal>
    ensures { answer_of result ≡ split_answer n tape }
{
    if !is_share_count(n) {
        return Err(Refusal::ShareCount);
    }
    if tape < n - 1 {
        return Err(Refusal::Tape);
    }
    Ok(Counts::NONE)
}

// Shares 1 and up are the tape's words in order; share 0 is the word with all of them taken out.
fn mask(word: u64, tape: &[u64], out: &mut [u64])
    requires { (0 < length out.old) × (length out.old ≤ length tape.now + 1) }
    ensures { out.new ≡ split_of word (take (length out.old - 1) tape.now) }
{
    // One by one: copied at once, two shares would lie side by side in a register.
    let mut first = word;
    for i in 0..out.len() - 1 {
        first ^= tape[i];
        out[i + 1] = tape[i];
    }
    out[0] = first;
}

// Splits `word` into as many shares as `out` has words, by the tape's first words. Turned down with 1 where that is not 2 to 8, and with 6
// where the tape has fewer than n - 1 words; `out` is then as it was.
#[tactic(auto, using(crate::proofs::SplitJoin::split_joins))]
pub fn split(word: u64, tape: &[u64], out: &mut [u64]) -> Result<Counts, Refusal>
    ensures answer { answer_of result ≡ split_answer (length out.old) (length tape.now) }
    ensures out { out.new ≡ split_out word tape.now out.old }
    ensures holds { SplitJoins }
{
    let counts = split_answer(out.len(), tape.len())?;
    mask(word, tape, out);
    Ok(counts)
}

// The answer of join for C, and the word joined: 0 when turned down.
#[repr(C)]
#[derive(Clone, Copy)]
pub struct Joined {
    pub answer: Answer,
    pub word: u64,
}

impl From<Result<u64, Refusal>> for Joined {
    ghost from_gives = { λ r j. j ≡ joined_of r };

    fn from(r: Result<u64, Refusal>) -> Joined {
        match r {
            Ok(word) => Joined {
                answer: Answer::from(Ok(Counts::NONE)),
                word,
            },
            Err(e) => Joined {
                answer: Answer::from(e),
                word: 0,
            },
        }
    }
}

// The exclusive-or of all shares.
fn unmask(shares: &[u64]) -> u64
    ensures { result ≡ xor_all shares.now }
{
    shares.iter().fold(0, |word, share| word ^ *share)
}

// Joins shares to their word. Turned down with 1 where they are not 2 to 8.
#[tactic(auto, using(crate::proofs::SplitJoin::split_joins), unfolding(crate::specs::SplitJoin::join_answer))]
pub fn join(shares: &[u64]) -> Result<u64, Refusal>
    ensures answer { (joined_of result).answer ≡ join_answer (length shares.now) }
    ensures word { (joined_of result).word ≡ joined_word shares.now }
    ensures holds { SplitJoins }
{
    if !is_share_count(shares.len()) {
        return Err(Refusal::ShareCount);
    }
    Ok(unmask(shares))
}
