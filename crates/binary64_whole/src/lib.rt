// Floor, truncation and nearest of 64-bit words as the documents' numbers, on plain words.
// Each is proved equal to its definition in binary64's specs/; none is ever turned down, and none branches on its operands (tests/constant_time).
#![tactic(auto)]

mod whole;

ghost use Rattle.std.specs.Prelude.{◌≡◌};
ghost use Rattle.binary64.specs.Floor.{floor};
ghost use Rattle.binary64.specs.Nearest.{nearest};
ghost use Rattle.binary64.specs.Truncate.{truncate};

use binary64_parts::fields::sign_bit;

// The greatest whole number not above the operand, a zero with the operand's sign. Below 1 in magnitude, a negative number that is no zero becomes -1.
pub fn floor(a: u64) -> u64
    ensures { result ≡ floor a }
{
    let lowered = whole::lower(a, whole::fraction(a));
    let below = 0x800f_ffff_ffff_ffff < a;
    whole::by_range(a, whole::below_one(a, below), lowered)
}

// The whole part, with the operand's sign.
pub fn truncate(a: u64) -> u64
    ensures { result ≡ truncate a }
{
    let part = whole::cleared(a, whole::fraction(a));
    let small = sign_bit(a);
    whole::by_range(a, small, part)
}

// The nearest whole number, a tie to the even one, with the operand's sign. With k bits of fraction 2^(k-1) - 1 is added, and one more
// where the whole part is odd, before the fraction is cleared. Below 1 in magnitude, what is above a half becomes 1.
pub fn nearest(a: u64) -> u64
    ensures { result ≡ nearest a }
{
    let f = whole::fraction(a);
    let raised = a.wrapping_add((f >> 1) + whole::last_whole(a));
    let rounded = whole::cleared(raised, f);
    let above = 0x3fe0_0000_0000_0000 < (a & 0x7fff_ffff_ffff_ffff);
    whole::by_range(a, whole::below_one(a, above), rounded)
}
