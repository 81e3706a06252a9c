// Split and join for C. What holds of them is `SplitJoins`.
ghost use Rattle.std.specs.Prelude.{◌≡◌, length};
ghost use Rattle.split_join.specs.SplitJoin.{join_answer, joined_word, split_answer, split_out, SplitJoins};

use checks::answer::Answer;
use split_join::Joined;

// Splits a word into as many shares as `out` has words.
#[unsafe(no_mangle)]
pub extern "C" fn lubewon_split(word: u64, tape: &[u64], out: &mut [u64]) -> Answer
    ensures answer { result ≡ split_answer (length out.old) (length tape.now) }
    ensures out { out.new ≡ split_out word tape.now out.old }
    ensures holds { SplitJoins }
{
    Answer::from(split_join::split(word, tape, out))
}

// Joins shares to their word, 0 when turned down.
#[unsafe(no_mangle)]
pub extern "C" fn lubewon_join(shares: &[u64]) -> Joined
    ensures answer { result.answer ≡ join_answer (length shares.now) }
    ensures word { result.word ≡ joined_word shares.now }
    ensures holds { SplitJoins }
{
    Joined::from(split_join::join(shares))
}
