// The listing piece by piece: the first line and the head's or the refusal, then the lines of as many plan words as there is room for.
ghost use Rattle.listing.specs.Pieces.{ListsPiece, listed_words};
ghost use Rattle.listing_lines.specs.Writing.{Wrote};

use crate::opening::opening;
use listing_input::{list_answer, plan_words, share_count};
use listing_parts::list_part;
use word::step_word::StepWord;

// The plan words that are listed, at the front of `plan`: none where the input is turned down. The answer counts them.
fn listed_words(input: &[u8], plan: &mut [u32]) -> usize
    ensures { Wrote (listed_words input.now) plan.old plan.new result }
{
    match list_answer(input) {
        Ok(_) => plan_words(input, plan),
        Err(_) => 0,
    }
}

// What a piece comes to: the bytes written, the number of the piece that follows, and whether none does. `ListsPiece` fixes that number for the last
// piece too, so it is no Option.
#[derive(Clone, Copy)]
pub struct Piece {
    pub bytes: usize,
    pub next: usize,
    pub last: bool,
}

// One piece of the listing of an input, by its number: 0 first, then each that the piece before it says is next, up to the last. Where
// `out` has less room than any word's lines may take, no word is listed, and the next of a piece behind 0 is itself; a first line and the
// head's that do not fit together are not written.
pub fn list_piece(input: &[u8], from: usize, out: &mut [u8]) -> Piece
    ensures { ListsPiece input.now from out.old out.new result.bytes result.next result.last }
{
    let mut plan = [0u32; StepWord::PLAN_MAX];
    let count = listed_words(input, &mut plan);
    if from == 0 {
        let bytes = opening(input, out);
        return Piece {
            bytes,
            next: 1,
            last: count == 0,
        };
    }
    let part = list_part(share_count(input), &plan[..count], from - 1, out);
    Piece {
        bytes: part.bytes,
        next: part.next + 1,
        last: count <= part.next,
    }
}
