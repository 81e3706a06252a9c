// The answer that every call gives to C.
ghost use Rattle.std.specs.Prelude.{◌≡◌};
ghost use Rattle.checks.specs.Answers.{answer_of, refusal_of};

use crate::refusal::{Counts, Refusal};

// `number` is 0 for done, else the turn-down's number. `place` is the first bad word's for number 3, else 0. `words` and `tape` are
// the call's counts, 0 when it is turned down. The numbers are the C interface's: in Rattle a call gives a `Result`.
#[repr(C)]
#[derive(Clone, Copy, PartialEq, Eq)]
pub struct Answer {
    pub number: u32,
    pub place: usize,
    pub words: usize,
    pub tape: usize,
}

impl Answer {
    fn refused(number: u32, place: usize) -> Answer
        ensures { result ≡ record { number = number; place = place; words = 0; tape = 0 } }
    {
        Answer {
            number,
            place,
            words: 0,
            tape: 0,
        }
    }
}

impl From<Refusal> for Answer {
    ghost from_gives = { λ e a. a ≡ refusal_of e };

    fn from(e: Refusal) -> Answer {
        match e {
            Refusal::ShareCount => Answer::refused(1, 0),
            Refusal::TooLong => Answer::refused(2, 0),
            Refusal::BadWord(place) => Answer::refused(3, place),
            Refusal::Length => Answer::refused(4, 0),
            Refusal::Place => Answer::refused(5, 0),
            Refusal::Tape => Answer::refused(6, 0),
            Refusal::Layer => Answer::refused(7, 0),
            Refusal::Head => Answer::refused(8, 0),
        }
    }
}

impl From<Result<Counts, Refusal>> for Answer {
    ghost from_gives = { λ r a. a ≡ answer_of r };

    fn from(r: Result<Counts, Refusal>) -> Answer {
        match r {
            Ok(counts) => Answer {
                number: 0,
                place: 0,
                words: counts.words,
                tape: counts.tape,
            },
            Err(e) => Answer::from(e),
        }
    }
}
