// The share machine: words done in order on the cells, each taken apart into its step, RAND taking the next tape word. The calls above
// check the whole program first. A head is no step and does nothing, as in the definition; nor would a bad word.
ghost use Rattle.std.specs.Prelude.{◌≡◌, [], ◌∷◌, ◌+◌, ◌≤◌, T, drop, length};
ghost use Rattle.word.specs.Encoding.{in_program};
ghost use Rattle.masking.specs.Machine as machine;

use word::step::Step;
use word::step_word::StepWord;
use word_steps::program_step;

// One step of a share program on 512 cells, over a tape that has a word for it where it is RAND; the answer is the next tape word's place. A
// share program has no ADD.
fn step_done(s: Step, tape: &[u64], t: usize, cells: &mut [u64]) -> usize
    requires t { T (in_program s) }
    requires s_in_bounds { t + machine.takes s ≤ length tape.now }
    requires cells_len { length cells.old ≡ 512 }
    ensures place { result ≡ t + machine.takes s }
    ensures cells { cells.new ≡ machine.exec_step s (drop t tape.now) cells.old }
{
    match s {
        Step::Const { d, k } => {
            cells[d] = k as u64;
            t
        }
        Step::Xor { d, a, b } => {
            cells[d] = cells[a] ^ cells[b];
            t
        }
        Step::And { d, a, b } => {
            cells[d] = cells[a] & cells[b];
            t
        }
        Step::Not { d, a } => {
            cells[d] = !cells[a];
            t
        }
        Step::Shl { d, a, b } => {
            cells[d] = cells[a] << b;
            t
        }
        Step::Shr { d, a, b } => {
            cells[d] = cells[a] >> b;
            t
        }
        Step::Spread { d, a } => {
            cells[d] = (cells[a] % 2) * u64::MAX;
            t
        }
        Step::Add { d: _, a: _, b: _ } => t,
        Step::Rand { d } => {
            cells[d] = tape[t];
            t + 1
        }
    }
}

// One word: a head does nothing, nor does a bad word.
fn word_done(w: u32, tape: &[u64], t: usize, cells: &mut [u64]) -> usize
    requires w_in_bounds { t + machine.rands (w ∷ []) ≤ length tape.now }
    requires cells_len { length cells.old ≡ 512 }
    ensures place { result ≡ t + machine.rands (w ∷ []) }
    ensures cells { cells.new ≡ machine.exec (w ∷ []) (drop t tape.now) cells.old }
{
    let Some(s) = program_step(StepWord::from(w)) else {
        return t;
    };
    step_done(s, tape, t, cells)
}

// Words in order on 512 cells, over a tape that has enough words for them.
pub fn exec(words: &[u32], tape: &[u64], cells: &mut [u64])
    requires words_in_bounds { machine.rands words.now ≤ length tape.now }
    requires cells_len { length cells.old ≡ 512 }
    ensures { cells.new ≡ machine.exec words.now tape.now cells.old }
{
    let mut t = 0;
    for w in words {
        t = word_done(*w, tape, t, cells);
    }
}
