// The listing's opening: the first line and the head's, put together and then written whole or not at all, or the refusal.
ghost use Rattle.listing.specs.Pieces.{opening_lines, opening_of};
ghost use Rattle.listing_lines.specs.Writing.{Wrote};

use checks::answer::Answer;
use checks::refusal::Counts;
use listing_hex::hex_lines;
use listing_input::{list_answer, share_count};
use listing_lines::line::{first_line, put_text, refused_line};
use word::step_word::StepWord;

// The first line and the head's. Neither is written where both do not fit.
fn opening_lines(n: u8, counts: Counts, out: &mut [u8]) -> usize
    ensures { Wrote (opening_lines n counts.words counts.tape) out.old out.new result }
{
    let mut text = [0u8; 96];
    let first = first_line(n as usize, counts.words, counts.tape, &mut text);
    let head = [StepWord::head(n)];
    let second = hex_lines(&head, &mut text[first..]);
    put_text(&text[..first + second], out)
}

// These, or the line of the turn-down. Nothing is written where it does not fit.
pub fn opening(input: &[u8], out: &mut [u8]) -> usize
    ensures { Wrote (opening_of input.now) out.old out.new result }
{
    match list_answer(input) {
        Ok(counts) => opening_lines(share_count(input) as u8, counts, out),
        Err(refusal) => refused_line(Answer::from(refusal).number, out),
    }
}
