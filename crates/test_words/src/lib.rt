// Words at random for the test programs, by a shift register of Marsaglia's. They are test input: no promise rests on which words these are.
#![tactic(auto)]

// One more word.
pub fn next(seed: u64) -> u64 {
    let a = seed ^ (seed << 13);
    let b = a ^ (a >> 7);
    b ^ (b << 17)
}

// As many words as `out` has.
pub fn fill(seed: u64, out: &mut [u64]) {
    let mut word = seed;
    for x in out.iter_mut() {
        word = next(word);
        *x = word;
    }
}
