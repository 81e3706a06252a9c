// The step word's own type: its bit places, the cells and limits that go with it, and its fields.
ghost use Rattle.std.specs.Prelude.{◌≡◌};
ghost use Rattle.word.specs.Encoding as spec;
ghost use Rattle.word.specs.Encoding.{kind_of, bit27, field_d, field_a, field_b};
ghost use Rattle.word.specs.Head.{head_word};
ghost use Rattle.word.specs.Layout as layout;

use crate::parts::{put, row};
use crate::step::Step;

#[derive(Clone, Copy, PartialEq, Eq)]
pub struct StepWord {
    pub bits: u32,
}

impl From<u32> for StepWord {
    ghost from_gives = { λ bits w. w.bits ≡ bits };

    fn from(bits: u32) -> StepWord {
        StepWord { bits }
    }
}

impl StepWord {
    // Bit places: bits 31..28 kind, bit 27 zero, bits 26..18 d, 17..9 a, 8..0 b.
    pub const KIND_AT: u32 = 28;

    pub const ZERO_AT: u32 = 27;

    pub const D_AT: u32 = 18;

    pub const A_AT: u32 = 9;
    // The values that a field of nine bits can have.
    pub const FIELD: u32 = 512;

    // The values that CONST's number, of a's and b's bits, and a shift can have.
    pub const NUMBERS: u32 = StepWord::FIELD * StepWord::FIELD;

    // The word of kind 1 with all else zero.
    pub const KIND_UNIT: u32 = 268435456;

    pub const SHIFTS: u32 = 64;

    // The kinds: the numbers of `Step`'s variants in a word. Functions of a kind answer for every number of four bits, as fields hold any.
    pub const CONST: u32 = 1;

    pub const XOR: u32 = 2;

    pub const AND: u32 = 3;

    pub const NOT: u32 = 4;

    pub const SHL: u32 = 5;

    pub const SHR: u32 = 6;

    pub const SPREAD: u32 = 7;

    pub const ADD: u32 = 8;

    pub const RAND: u32 = 9;

    // No kind of step: a share program's first word has it.
    pub const HEAD: u32 = 10;

    // The tape words that AND and ADD take for each pair of shares.
    pub const AND_TAPE: usize = 2;

    pub const ADD_TAPE: usize = 24;

    // Limits: of a plan, of one plan word's share words (ADD's for eight shares), and of a share program.
    pub const PLAN_MAX: usize = 2048;

    pub const WORD_MAX: usize = 60 * (8 * 8) + 21 * 8 + 24;

    pub const PROGRAM_MAX: usize = StepWord::PLAN_MAX * StepWord::WORD_MAX;

    // With the head before it.
    pub const HEADED_MAX: usize = StepWord::PROGRAM_MAX + 1;

    pub const REGISTERS: usize = 32;

    pub const CELLS: usize = 512;

    // A plan's cells are its registers.
    pub const PLAN_CELLS: u32 = StepWord::REGISTERS as u32;

    // From share to share: the cells on of a register, and of a helper register of ADD.
    pub const SHARE: u16 = StepWord::REGISTERS as u16;

    pub const HELPER_SHARE: u16 = 8;

    // The scratch cells of AND: y and z have one for each share.
    pub const Y: u16 = 256;

    pub const Z: u16 = 264;

    pub const T: u16 = 272;

    pub const U: u16 = 273;
    // The helper registers of ADD begin here.
    pub const HELPERS: u16 = 288;

    pub fn kind(self) -> u32
        ensures { result ≡ kind_of self.bits }
    {
        self.bits >> StepWord::KIND_AT
    }

    pub fn zero_bit(self) -> u32
        ensures { result ≡ bit27 self.bits }
    {
        (self.bits >> StepWord::ZERO_AT) % 2
    }

    pub fn d(self) -> usize
        ensures { result ≡ field_d self.bits }
    {
        ((self.bits >> StepWord::D_AT) % StepWord::FIELD) as usize
    }

    pub fn a(self) -> usize
        ensures { result ≡ field_a self.bits }
    {
        ((self.bits >> StepWord::A_AT) % StepWord::FIELD) as usize
    }

    pub fn b(self) -> usize
        ensures { result ≡ field_b self.bits }
    {
        (self.bits % StepWord::FIELD) as usize
    }

    // The step that the fields name, before its ranges are looked at, or None where bit 27 or a field that must be 0 is set.
    #[tactic(auto, unfolding(crate::specs::Encoding::named))]
    pub fn named(self) -> Option<Step>
        ensures { result ≡ spec.named self.bits }
    {
        if self.zero_bit() == 0 {
            row(self.kind(), self.d(), self.a(), self.b())
        } else {
            None
        }
    }

    // The head of a share program for n shares, 2..8.
    pub fn head(n: u8) -> u32
        ensures { result ≡ head_word n }
    {
        put(StepWord::HEAD, n as u16, 0, 0)
    }

    // Share i of register r.
    pub fn cell(i: u8, r: u8) -> u16
        ensures { result ≡ layout.cell i r }
    {
        StepWord::SHARE * (i as u16) + (r as u16)
    }

    // Share words that a plan word of this kind translates to for n shares.
    #[tactic(auto, using(crate::proofs::Small::square_lt), unfolding(crate::specs::Layout::length_of))]
    pub fn length(kind: u32, n: u8) -> usize
        ensures { result ≡ layout.length_of kind n }
    {
        let n = n as usize;
        match kind {
            StepWord::AND => 5 * (n * n) + 2,
            StepWord::ADD => 60 * (n * n) + 21 * n + 24,
            _ => n,
        }
    }

    // Tape words that a plan word of this kind uses for n shares.
    #[tactic(auto, using(crate::proofs::Small::pairs_lt), unfolding(crate::specs::Layout::tape_of))]
    pub fn tape(kind: u32, n: u8) -> usize
        ensures { result ≡ layout.tape_of kind n }
    {
        if n == 0 {
            return 0;
        }
        let n = n as usize;
        let pairs = n * (n - 1) / 2;
        match kind {
            StepWord::AND => StepWord::AND_TAPE * pairs,
            StepWord::ADD => StepWord::ADD_TAPE * pairs,
            _ => 0,
        }
    }
}
