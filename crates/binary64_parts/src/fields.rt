// The fields of a word: sign, E and F.
ghost use Rattle.std.specs.Prelude.{◌≡◌, ◌+◌, ◌*◌, ◌^◌};
ghost use Rattle.binary64.specs.Number.{sign, expo, frac};

// The sign, left at bit 63.
pub fn sign_bit(a: u64) -> u64
    ensures { result ≡ sign a * 2 ^ 63 }
{
    a & 0x8000_0000_0000_0000
}

// E.
pub fn exponent(a: u64) -> u64
    ensures { result ≡ expo a }
{
    (a >> 52) & 0x7ff
}

// F below the hidden bit: the significand of a number that is not zero.
pub fn significand(a: u64) -> u64
    ensures { result ≡ 2 ^ 52 + frac a }
{
    (a & 0xf_ffff_ffff_ffff) + 0x10_0000_0000_0000
}
