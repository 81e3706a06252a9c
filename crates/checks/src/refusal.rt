// Why a call is turned down, and what a call that is done has counted. Document 01's number for each case is `answer_of`'s, in specs/.

// In document 01's order; a bad word has its place.
#[derive(Clone, Copy, PartialEq, Eq)]
pub enum Refusal {
    // 1: the share count is not 2 to 8
    ShareCount,
    // 2: a plan or share program is too long
    TooLong,
    // 3: a bad word
    BadWord(usize),
    // 4: a slice has the wrong length
    Length,
    // 5: a place is past the end
    Place,
    // 6: the tape is too short
    Tape,
    // 7: there is no such layer
    Layer,
    // 8: the head is not that of the share count
    Head,
}

// Words and tape words. What the words are is the call's to say.
#[derive(Clone, Copy, PartialEq, Eq)]
pub struct Counts {
    pub words: usize,
    pub tape: usize,
}

impl Counts {
    // Of a call that counts nothing.
    pub const NONE: Counts = Counts { words: 0, tape: 0 };
}
