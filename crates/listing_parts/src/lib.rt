// The lines of plan words, part by part: those of each word's share words.
#![tactic(auto)]

ghost use Rattle.listing_parts.specs.Parts.{ListsPart, word_lines};
ghost use Rattle.listing_lines.specs.Writing.{Wrote};

use checks::share_count::is_share_count;
use listing_hex::{LINE, hex_lines};
use translation_word::plan_word;
use word::step_word::StepWord;

// The bytes that a plan word's lines take at most.
const WORD_BYTES: usize = LINE * StepWord::WORD_MAX;

// The lines of one plan word's share words. Nothing is written where the word is bad, n is no share count, or the lines do not fit.
pub fn word_lines(n: usize, w: u32, out: &mut [u8]) -> usize
    ensures { Wrote (word_lines n w) out.old out.new result }
{
    if !is_share_count(n) {
        return 0;
    }
    let mut words = [0u32; StepWord::WORD_MAX];
    let count = plan_word(n as u8, w, &mut words);
    hex_lines(&words[..count], out)
}

// How far a part of the listing goes: the number of the next plan word, and the bytes written.
#[derive(Clone, Copy)]
pub struct Part {
    pub next: usize,
    pub bytes: usize,
}

// The lines of the plan's words from one on, as many as begin while there is room for any word's lines.
pub fn list_part(n: usize, plan: &[u32], from: usize, out: &mut [u8]) -> Part
    ensures { ListsPart n plan.now from out.old out.new result.next result.bytes }
{
    // Not `for next in from..plan.len()`: the proof of where it ends, with `from` behind the plan too, did not close.
    let mut next = from;
    let mut at = 0;
    while next < plan.len() && WORD_BYTES <= out.len() - at {
        at += word_lines(n, plan[next], &mut out[at..]);
        next += 1;
    }
    Part { next, bytes: at }
}
