// How many tape words a share program takes: its RANDs.
ghost use Rattle.std.specs.Prelude.{◌≡◌};
ghost use Rattle.masking.specs.Machine as machine;
ghost use Rattle.share_machine.specs.inner.Good.{RandsGood};

use word::step_word::StepWord;

// The RANDs among words: those of kind 9, which have to be good.
pub fn rands(words: &[u32]) -> usize
    requires { RandsGood words.now }
    ensures { result ≡ machine.rands words.now }
{
    // By place: the compiler makes vectors of this loop, and not of an iterator, which takes five instructions a word more in share run.
    let mut count = 0;
    for i in 0..words.len() {
        if words[i] >> StepWord::KIND_AT == StepWord::RAND {
            count += 1;
        }
    }
    count
}
