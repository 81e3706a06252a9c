// AND's scratch cells: y and z have one for each share.
use word::step_word::StepWord;

pub const Y: usize = StepWord::Y as usize;

pub const Z: usize = StepWord::Z as usize;

pub const T: usize = StepWord::T as usize;

pub const U: usize = StepWord::U as usize;
