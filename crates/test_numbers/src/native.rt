// The machine's own binary64 operations on words, and what a comparison with the plain ones finds.

#[derive(Clone, Copy, PartialEq, Eq)]
pub enum Outcome {
    Skipped,
    Same,
    Different,
    // Where the documents depart from IEEE 754, and the plain result is what they say.
    Apart,
}

const SIGN: u64 = 0x8000_0000_0000_0000;

const LEAST_NORMAL: u64 = 0x0010_0000_0000_0000;

// 2^52: from here on every number is whole.
const WHOLE: u64 = 0x4330_0000_0000_0000;

const INFINITY: u64 = 0x7ff0_0000_0000_0000;

// Bits 62..0.
fn magnitude(a: u64) -> u64 {
    a & 0x7fff_ffff_ffff_ffff
}

// The float with these bits; a NaN's pattern is not asked for, and gives 0.
fn number(a: u64) -> f64 {
    if INFINITY < a & 0x7fff_ffff_ffff_ffff {
        return 0.0;
    }
    f64::from_bits(a)
}

// The bits of a float that is no NaN.
fn bits(x: f64) -> u64 {
    if x != x {
        return 0x7ff8_0000_0000_0000;
    }
    f64::to_bits(x)
}

// A zero or a normal number: what document 01 and IEEE 754 read alike.
fn plain(a: u64) -> bool {
    let m = magnitude(a);
    m == 0 || LEAST_NORMAL <= m && m < INFINITY
}

fn compared(ours: u64, theirs: u64) -> Outcome {
    if ours == theirs {
        Outcome::Same
    } else {
        Outcome::Different
    }
}

fn apart(ours: u64, said: u64) -> Outcome {
    if ours == said {
        Outcome::Apart
    } else {
        Outcome::Different
    }
}

// The number in 1..2 with a's fraction.
fn scaled(a: u64) -> f64 {
    number(0x3ff0_0000_0000_0000 | (a & 0xf_ffff_ffff_ffff))
}

// The upper half of a number's bits, by Veltkamp: the rest of it is exact in a float too.
fn upper(x: f64) -> f64 {
    let c = 134217729.0 * x;
    c - (c - x)
}

// What the product p of x and y lost by rounding, by Dekker: exact, for numbers in 1..2.
fn lost(x: f64, y: f64, p: f64) -> f64 {
    let xu = upper(x);
    let yu = upper(y);
    let xl = x - xu;
    let yl = y - yu;
    ((xu * yu - p) + xu * yl + xl * yu) + xl * yl
}

// Whether the exact product of two normal numbers is below 2^-1022: by the sum of their exponents or, where that leaves it open, by
// whether the product of their significands is below 2.
fn below_normal(a: u64, b: u64) -> bool {
    let e = ((a >> 52) & 0x7ff) + ((b >> 52) & 0x7ff);
    if e != 1023 {
        return e < 1023;
    }
    let x = scaled(a);
    let y = scaled(b);
    let p = x * y;
    if p != 2.0 {
        return p < 2.0;
    }
    lost(x, y, p) < 0.0
}

// An exact product below 2^-1022 is a zero of its sign by document 01, whatever it is natively: the least normal number, or a smaller one.
pub fn product(a: u64, b: u64) -> Outcome {
    if !plain(a) || !plain(b) {
        return Outcome::Skipped;
    }
    let ours = binary64_plain::product(a, b);
    if magnitude(a) != 0 && magnitude(b) != 0 && below_normal(a, b) {
        return apart(ours, (a ^ b) & SIGN);
    }
    compared(ours, bits(number(a) * number(b)))
}

// A sum that comes out below the least normal number is exact, and if it is not zero, document 01 makes it a zero of its sign.
pub fn sum(a: u64, b: u64) -> Outcome {
    if !plain(a) || !plain(b) {
        return Outcome::Skipped;
    }
    let theirs = bits(number(a) + number(b));
    if magnitude(theirs) != 0 && magnitude(theirs) < LEAST_NORMAL {
        return apart(binary64_plain::sum(a, b), theirs & SIGN);
    }
    compared(binary64_plain::sum(a, b), theirs)
}

// The nearest whole number, a tie to the even one, for a magnitude below 2^52. This is the processor's own rounding: a sum with 2^52 of x's sign
// lies where the floats are the whole numbers, so the adder rounds x to one of them, and taking 2^52 away again is exact.
fn near(x: f64) -> f64 {
    let away = if x < 0.0 {
        -4503599627370496.0
    } else {
        4503599627370496.0
    };
    (x + away) - away
}

// The greatest whole number not above x: the nearest one is one too large where it lies above x.
fn whole(x: f64) -> f64 {
    let n = near(x);
    if n > x { n - 1.0 } else { n }
}

// A rounding that keeps the sign: `rounded` is what the number or its magnitude rounds to natively, and the sign of a is put back; from 2^52 on a is
// whole. At E = 0 the two agree whatever F is, for what IEEE 754 reads there rounds to a zero too, but for floor below zero. At E = 2047, where it
// reads no number, the documents have the operand.
fn sign_kept(ours: u64, a: u64, rounded: f64) -> Outcome {
    let m = magnitude(a);
    if m < WHOLE {
        return compared(ours, bits(rounded) | (a & SIGN));
    }
    if m < INFINITY {
        return compared(ours, bits(number(a)));
    }
    apart(ours, a)
}

// A word with E = 0 and the sign set is minus zero in the documents; where its F is not 0, IEEE 754 reads a number, whose floor is -1.
pub fn floor(a: u64) -> Outcome {
    if SIGN < a && a < SIGN | LEAST_NORMAL {
        return apart(binary64_whole::floor(a), SIGN);
    }
    sign_kept(binary64_whole::floor(a), a, whole(number(a)))
}

// The magnitude's floor, by the adder too: Rattle's conversions that drop a fraction do so on the bits, and not by the processor's own.
pub fn truncate(a: u64) -> Outcome {
    sign_kept(binary64_whole::truncate(a), a, whole(number(magnitude(a))))
}

pub fn nearest(a: u64) -> Outcome {
    sign_kept(binary64_whole::nearest(a), a, near(number(magnitude(a))))
}
