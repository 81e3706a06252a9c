// Product and sum of 64-bit words as document 01's numbers, on plain words. The roundings to a whole number are binary64_whole's.
// Each is proved equal to its definition in binary64's specs/; none is ever turned down, and none branches on its operands (tests/constant_time).
#![tactic(auto)]

mod add;
mod multiply;

ghost use Rattle.std.specs.Prelude.{◌≡◌};
ghost use Rattle.binary64.specs.Product.{product};
ghost use Rattle.binary64.specs.Sum.{sum};

use binary64_parts::fields::sign_bit;
use binary64_parts::select::choose;

// The product, rounded.
pub fn product(a: u64, b: u64) -> u64
    ensures { result ≡ product a b }
{
    sign_bit(a ^ b) | multiply::magnitude(a, b)
}

// The sum, rounded. The operand that is larger by its bits 62..0 goes first.
pub fn sum(a: u64, b: u64) -> u64
    ensures { result ≡ sum a b }
{
    let less = (a & 0x7fff_ffff_ffff_ffff) < (b & 0x7fff_ffff_ffff_ffff);
    add::ordered(choose(less, b, a), choose(less, a, b))
}
