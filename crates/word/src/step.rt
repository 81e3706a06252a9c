// Steps: the kind of a step word with its fields. Cells have nine bits, a constant eighteen. A cell is a `usize`, as it indexes; in narrower types the
// compiler packs a step into one machine word and takes it apart again. A word taken apart is an `Option<Step>`: `None` is the finding that it is bad.
#[derive(Clone, Copy, PartialEq, Eq)]
pub enum Step {
    Const { d: usize, k: u32 },
    Xor { d: usize, a: usize, b: usize },
    And { d: usize, a: usize, b: usize },
    Not { d: usize, a: usize },
    Shl { d: usize, a: usize, b: u32 },
    Shr { d: usize, a: usize, b: u32 },
    Spread { d: usize, a: usize },
    Add { d: usize, a: usize, b: usize },
    Rand { d: usize },
}
