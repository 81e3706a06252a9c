// Operands at edges and at random.
ghost use Rattle.std.specs.Prelude.{◌≤◌};

// Fractions at edges: zero, the least, the greatest and the one before it, half and its neighbours, two.
const FRACTIONS: [u64; 8] = [
    0,
    1,
    0xf_ffff_ffff_ffff,
    0x8_0000_0000_0000,
    0x8_0000_0000_0001,
    0x7_ffff_ffff_ffff,
    0xf_ffff_ffff_fffe,
    2,
];

// Exponents at edges: zero, the least and the greatest normal ones, around 1, and where whole numbers begin and end.
const EXPONENTS: [u64; 12] = [0, 1, 2, 54, 970, 1022, 1023, 1024, 1074, 1075, 2045, 2046];

fn fraction(k: u64) -> u64 {
    FRACTIONS[(k % 8) as usize]
}

fn exponent(k: u64) -> u64 {
    EXPONENTS[(k % 12) as usize]
}

// A word from its fields; each is cut to its place.
fn word(s: u64, e: u64, f: u64) -> u64 {
    (s << 63) | ((e & 0x7ff) << 52) | (f & 0xf_ffff_ffff_ffff)
}

// The edges, 192 of them: by their number the sign, fraction and exponent.
fn edge(k: u64) -> u64 {
    word(k % 2, exponent(k / 16), fraction(k / 2))
}

// A number in 1..2 and one d exponents below it, by the number k of their fractions and signs.
fn larger(k: u64) -> u64 {
    word(k % 2, 1023, fraction(k / 4))
}

fn smaller(k: u64, d: u64) -> u64 {
    word(k / 2 % 2, 1023 - d % 71, fraction(k / 32))
}

// The exponent e in a word that keeps its other bits.
fn placed(r: u64, e: u64) -> u64 {
    word(r >> 63, e, r)
}

// The first operand of a pair at random, by the way of shaping. A way is a pair's number modulo 8, which `match` reads as it is: an enum would
// have to be made of that remainder by another such `match`.
fn drawn_first(way: u64, r: u64) -> u64 {
    match way {
        // any word
        0 => r,
        // few bits: sums and products of these make ties
        1 => r & 0xffff_ffff_fc00_0000,
        2 => r & 0xffff_f800_0000_0000,
        // near 1
        3 => placed(r, 1003 + r / 2048 % 40),
        // near the least normal number
        4 => placed(r, 1 + r / 2048 % 60),
        _ => r,
    }
}

// A multiple of a half from 1/2 up to 2^52, or a neighbour of one: where rounding to a whole number turns.
fn near_half(r: u64) -> u64 {
    let e = 1022 + r / 2048 % 53;
    let below = 1074 - e;
    let half = (placed(r, e) >> below) << below;
    half.wrapping_add(r % 3).wrapping_sub(1)
}

// Two less than the exponents' sum at which a product overflows, or underflows; whole turns of 2048 do not matter.
fn limit(r: u64) -> u64
    ensures { (2048 ≤ result) × (result ≤ 4096) }
{
    if r & 1 == 0 { 3067 } else { 3070 }
}

// The second: apart from the first by up to 70 exponents, close to its negative, or so that the product is near a limit.
fn drawn_second(way: u64, a: u64, r: u64) -> u64 {
    let e = (a >> 52) % 2048;
    match way {
        0 => r,
        1 => r & 0xffff_ffff_fc00_0000,
        2 => placed(r & 0xffff_f800_0000_0000, e + r / 4096 % 71),
        3 => placed(r, 1003 + r / 2048 % 40),
        4 => placed(r, 1 + r / 2048 % 60),
        5 => placed(r, e + 2048 - r / 4096 % 71),
        6 => a ^ 0x8000_0000_0000_0000 ^ (r & 0x0010_0000_0000_000f),
        _ => placed(r, limit(r) + r / 2048 % 5 - e),
    }
}

// Pairs by their number: every pair of the edges; then numbers 0 to 70 exponents apart, with every pair of the edge fractions and both
// signs; then what `r` gives, shaped in eight ways by turns.
const OF_EDGES: u64 = 36864;

const AT_EDGES: u64 = 55040;

pub fn first(i: u64, r: u64) -> u64 {
    if i < OF_EDGES {
        return edge(i / 192);
    }
    if i < AT_EDGES {
        return larger(i % 256);
    }
    drawn_first(i % 8, r)
}

pub fn second(i: u64, a: u64, r: u64) -> u64 {
    if i < OF_EDGES {
        return edge(i % 192);
    }
    if i < AT_EDGES {
        return smaller(i % 256, (i - OF_EDGES) / 256);
    }
    drawn_second(i % 8, a, r)
}

// The operand of an operation with one: as the first of a pair, but at random in three turns of eight near a half.
pub fn only(i: u64, r: u64) -> u64 {
    if i < AT_EDGES {
        return first(i, r);
    }
    if i % 8 < 5 { first(i, r) } else { near_half(r) }
}
