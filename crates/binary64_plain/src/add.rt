// The sum of two operands in order.
ghost use Rattle.std.specs.Prelude.{◌≡◌, ◌%◌, ◌^◌, ◌<◌, ◌≤◌};
ghost use Rattle.binary64.specs.Sum.{sum};
ghost use Rattle.binary64.specs.inner.Steps.{jam, aligned};

use binary64_parts::fields::{exponent, sign_bit, significand};
use binary64_parts::rounding::{encode, sticky};
use binary64_parts::select::{choose, kept};

// w shifted right by d places, doubled, with a sticky bit for the bits shifted out. From 63 places on all of them are.
fn shift_jam(w: u64, d: u64) -> u64
    requires { w < 2 ^ 63 }
    ensures { result ≡ jam d w }
{
    let k = choose(d < 63, d, 63);
    let shifted = w >> k;
    let rest = w - (shifted << k);
    2 * shifted + sticky(rest)
}

// The smaller operand, whose exponent is d below the larger's, aligned with it; nothing for a zero.
fn align(b: u64, d: u64) -> u64
    ensures { result ≡ aligned d b }
{
    shift_jam(kept(exponent(b) != 0, significand(b) << 9), d)
}

// The sum of operands whose bits 62..0 are in falling order. Two zeros are minus zero only if both are; exact cancellation gives plus zero.
pub fn ordered(a: u64, b: u64) -> u64
    requires { b % 2 ^ 63 ≤ a % 2 ^ 63 }
    ensures { result ≡ sum a b }
{
    let e = exponent(a);
    let x = kept(e != 0, significand(a) << 10);
    let y = align(b, e - exponent(b));
    let s = sign_bit(a);
    let like = s == sign_bit(b);
    let z = choose(like, x + y, x - y);
    choose(like, s, kept(z != 0, s)) | encode(z, e)
}
