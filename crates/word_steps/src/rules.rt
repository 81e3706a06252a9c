// The two rules that say which steps a plan and a share program have.
ghost use Rattle.std.specs.Prelude.{◌≡◌, ◌<◌};
ghost use Rattle.word.specs.Encoding as spec;
ghost use Rattle.word.specs.Table.{dest};

use word::step::Step;
use word::step_word::StepWord;

// Whether all cells are below `cells`, the shift below 64 and the constant of 18 bits.
pub fn within(cells: usize, s: Step) -> bool
    ensures { result ≡ spec.within cells s }
{
    match s {
        Step::Const { d, k } => d < cells && k < StepWord::NUMBERS,
        Step::Xor { d, a, b } | Step::And { d, a, b } | Step::Add { d, a, b } => d < cells
            && a < cells
            && b < cells,
        Step::Not { d, a } | Step::Spread { d, a } => d < cells && a < cells,
        Step::Shl { d, a, b } | Step::Shr { d, a, b } => d < cells
            && a < cells
            && b < StepWord::SHIFTS,
        Step::Rand { d } => d < cells,
    }
}

// The number of a step's kind.
pub fn kind_number(s: Step) -> u32
    ensures { result ≡ spec.kind_number s }
{
    match s {
        Step::Const { .. } => StepWord::CONST,
        Step::Xor { .. } => StepWord::XOR,
        Step::And { .. } => StepWord::AND,
        Step::Not { .. } => StepWord::NOT,
        Step::Shl { .. } => StepWord::SHL,
        Step::Shr { .. } => StepWord::SHR,
        Step::Spread { .. } => StepWord::SPREAD,
        Step::Add { .. } => StepWord::ADD,
        Step::Rand { .. } => StepWord::RAND,
    }
}

// A plan's steps: kinds 1..8, registers. Asked of a step whose d is a register, which its word's field tells before its kind is looked at.
pub fn in_plan(s: Step) -> bool
    requires { dest s < 32 }
    ensures { result ≡ spec.in_plan s }
{
    match s {
        Step::Const { k, .. } => k < StepWord::NUMBERS,
        Step::Xor { a, b, .. } | Step::And { a, b, .. } | Step::Add { a, b, .. } => a
            < StepWord::REGISTERS
            && b < StepWord::REGISTERS,
        Step::Not { a, .. } | Step::Spread { a, .. } => a < StepWord::REGISTERS,
        Step::Shl { a, b, .. } | Step::Shr { a, b, .. } => a < StepWord::REGISTERS
            && b < StepWord::SHIFTS,
        Step::Rand { .. } => false,
    }
}

// A share program's steps: kinds 1..7 and 9, cells 0..511.
pub fn in_program(s: Step) -> bool
    ensures { result ≡ spec.in_program s }
{
    kind_number(s) != StepWord::ADD && within(StepWord::CELLS, s)
}
