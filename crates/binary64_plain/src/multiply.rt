// The magnitude of a product.
ghost use Rattle.std.specs.Prelude.{◌≡◌, ◌*◌, ◌^◌, ◌<◌};
ghost use Rattle.binary64.specs.Number.{magnitude};
ghost use Rattle.binary64.specs.Rounding.{mag_bits};
ghost use Rattle.binary64.specs.inner.Steps.{jam};

use binary64_parts::fields::{exponent, significand};
use binary64_parts::rounding::{encode, sticky};
use binary64_parts::select::kept;

// The product of two significands, which has up to 106 bits, without its low 51, and with a sticky bit for them.
// Each factor is cut into halves of 32 bits, and the four products are added by columns.
fn jammed_product(x: u64, y: u64) -> u64
    requires { (x < 2 ^ 53) × (y < 2 ^ 53) }
    ensures { result ≡ jam 51 (x * y) }
{
    let x0 = x & 0xffff_ffff;
    let x1 = x >> 32;
    let y0 = y & 0xffff_ffff;
    let y1 = y >> 32;
    let low = x0 * y0;
    let mid = x1 * y0 + x0 * y1 + (low >> 32);
    let top = x1 * y1 * 0x2000 + (mid >> 19);
    let rest = (mid & 0x7_ffff) * 0x1_0000_0000 + (low & 0xffff_ffff);
    2 * top + sticky(rest)
}

// Bits 62..0 of a product: zero where the product is, or is below 2^-1022.
pub fn magnitude(a: u64, b: u64) -> u64
    ensures { result ≡ mag_bits 1126 (magnitude a * magnitude b) }
{
    let ea = exponent(a);
    let eb = exponent(b);
    let e = ea + eb;
    let bits = encode(
        jammed_product(significand(a), significand(b)),
        e.wrapping_sub(1015),
    );
    kept(ea != 0, kept(eb != 0, kept(1015 <= e, bits)))
}
