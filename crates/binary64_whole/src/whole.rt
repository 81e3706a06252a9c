// Rounding a word to a whole number: by the range of its E, and its fraction bits.
ghost use Rattle.std.specs.Prelude.{◌≡◌, ◌-◌, ◌*◌, ◌^◌, ◌<◌, if◌then◌else◌, bit_and, nat_lt};
ghost use Rattle.binary64.specs.Number.{sign, expo, signed};
ghost use Rattle.binary64_whole.specs.inner.Steps.{lowered_by, FractionOf, LastWholeOf};

use binary64_parts::fields::{exponent, sign_bit};
use binary64_parts::select::{choose, kept};

// What is taken for a: `small` below 1, `between` below 2^52, and from there on, where every number is whole, a itself.
pub fn by_range(a: u64, small: u64, between: u64) -> u64
    ensures { result ≡ (if nat_lt (expo a) 1023 then small else (if nat_lt (expo a) 1075 then between else a)) }
{
    let e = exponent(a);
    choose(e < 1023, small, choose(e < 1075, between, a))
}

// What stands for a below 1: 1 where `one` holds, else a zero, with a's sign.
pub fn below_one(a: u64, one: bool) -> u64
    ensures { result ≡ signed (sign a) (if one then 1023 * 2 ^ 52 else 0) }
{
    sign_bit(a) | kept(one, 0x3ff0_0000_0000_0000)
}

// The bits of a's fraction, as a mask, where E is 1023 to 1074: E + 1 is E - 1023 modulo 64.
pub fn fraction(a: u64) -> u64
    ensures { FractionOf a result }
{
    0xf_ffff_ffff_ffff >> ((exponent(a) + 1) % 64)
}

// The last bit of a's whole part, where E is 1023 to 1074: it stands above the fraction's, at place 1075 - E, and is brought to the top by E + 12, which is
// E - 1012 modulo 64, and down. Not by one shift and a mask: the compiler makes a test of one bit of that (bt), which memcheck takes for an address.
pub fn last_whole(a: u64) -> u64
    ensures { (result < 2) × LastWholeOf a result }
{
    (a << ((exponent(a) + 12) % 64)) >> 63
}

// t without the bits of the mask f.
pub fn cleared(t: u64, f: u64) -> u64
    ensures { result ≡ t - bit_and t f }
{
    t - (t & f)
}

// The bits of the mask f cleared, once a negative number is raised by f, which carries into its whole part where a bit of the fraction is set.
pub fn lower(a: u64, f: u64) -> u64
    ensures { result ≡ lowered_by f a }
{
    cleared(a.wrapping_add(kept(sign_bit(a) != 0, f)), f)
}
