// From an exact number with a sticky bit to the bits of a result.
ghost use Rattle.std.specs.Prelude.{◌≡◌, ◌+◌, ◌*◌, ◌^◌, ◌≤◌, min, if◌then◌else◌, nat_eq, nat_lt};
ghost use Rattle.binary64.specs.inner.Steps.{round_ne, encoded};

use crate::select::{choose, kept};

// 1 where a bit of x is set.
#[tactic(auto, using(crate::proofs::Selecting::some))]
pub fn sticky(x: u64) -> u64
    ensures { result ≡ min x 1 }
{
    u64::from(x != 0)
}

// z / 2^11 to the nearest whole number, ties to even: half of 2^11 less one is added, and one more where the quotient is odd.
fn rounded(z: u64) -> u64
    ensures { result ≡ round_ne z 11 }
{
    let q = z >> 11;
    q + (((z & 0x7ff) + 0x3ff + (q & 1)) >> 11)
}

// E, given less one, and the rounded significand together; from 2047 on E stops there.
fn pack(e: u64, q: u64) -> u64
    requires { q ≤ 2 ^ 53 }
    ensures { result ≡ (if nat_lt e 2046 then e * 2 ^ 52 + q else 2047 * 2 ^ 52) }
{
    choose(e < 2046, (e << 52).wrapping_add(q), 0x7ff0_0000_0000_0000)
}

// The bits of the number z at the exponent e of its bit 62: brought to the top bit, rounded, and packed; nothing for z = 0.
// An exponent below zero is an underflow, found before any rounding.
pub fn encode(z: u64, e: u64) -> u64
    ensures { result ≡ (if nat_eq z 0 then 0 else encoded z e) }
{
    let places = u64::from(z.leading_zeros());
    let bits = pack(e.wrapping_sub(places), rounded(z << (places % 64)));
    kept(z != 0, kept(places <= e, bits))
}
