// Triples of eight kinds.
use crate::seed::Seed;
use crate::triple::Triple;
use pairs::bits::biased_exponent_f64;
use std::num::{f64_from_bits_with_nan, f64_to_bits_with_nan};

// The exponent fields of 2^-400, 2^400, 2^-512 and 2^512.
const FACTOR_LOW: u64 = 623;

const FACTOR_HIGH: u64 = 1423;

const TERM_LOW: u64 = 511;

const TERM_HIGH: u64 = 1535;

// A third term whose exponent lies within `distance` of the product's, and within the range.
fn near(seed: &mut Seed, product: f64, distance: u64) -> f64 {
    let field = biased_exponent_f64(product);
    let low = field.saturating_sub(distance).max(TERM_LOW);
    seed.number(low..field.saturating_add(distance).min(TERM_HIGH))
}

pub(crate) fn random(seed: &mut Seed) -> Triple {
    let a = seed.number(FACTOR_LOW..FACTOR_HIGH);
    let b = seed.number(FACTOR_LOW..FACTOR_HIGH);
    Triple {
        a,
        b,
        c: seed.number(TERM_LOW..TERM_HIGH),
    }
}

// Factors whose product is well within the range of the third term.
fn factors(seed: &mut Seed) -> Triple {
    let a = seed.number(FACTOR_LOW + 200..FACTOR_HIGH - 200);
    let b = seed.number(FACTOR_LOW + 200..FACTOR_HIGH - 200);
    Triple { a, b, c: 0.0 }
}

// c is -a b, rounded, or a few patterns away from it.
pub(crate) fn cancelling(seed: &mut Seed) -> Triple {
    let t = factors(seed);
    let bits = f64_to_bits_with_nan(-(t.a * t.b));
    let c = f64_from_bits_with_nan(bits.wrapping_add(seed.within(0..5)).wrapping_sub(2));
    Triple { c, ..t }
}

// Short factors and a short third term: many sums are ties.
pub(crate) fn tied(seed: &mut Seed) -> Triple {
    let t = factors(seed);
    let cut = 0xffff_ffff_f800_0000;
    let a = f64_from_bits_with_nan(f64_to_bits_with_nan(t.a) & cut);
    let b = f64_from_bits_with_nan(f64_to_bits_with_nan(t.b) & cut);
    let c = f64_to_bits_with_nan(near(seed, a * b, 60)) & 0xffff_ffff_0000_0000;
    Triple {
        a,
        b,
        c: f64_from_bits_with_nan(c),
    }
}

// The third term at every distance from the product.
pub(crate) fn spaced(seed: &mut Seed) -> Triple {
    let t = factors(seed);
    let c = near(seed, t.a * t.b, 120);
    Triple { c, ..t }
}

// A third term at either end of its range, and a product that is mostly far from it.
pub(crate) fn apart(seed: &mut Seed) -> Triple {
    let a = seed.number(FACTOR_LOW..FACTOR_LOW + 100);
    let b = seed.number(FACTOR_LOW..FACTOR_HIGH);
    let high = seed.number(TERM_HIGH - 100..TERM_HIGH);
    let low = seed.number(TERM_LOW..TERM_LOW + 100);
    Triple {
        a,
        b,
        c: seed.either(high, low),
    }
}

// Zeros among the arguments.
pub(crate) fn with_zeros(seed: &mut Seed) -> Triple {
    let t = random(seed);
    Triple {
        a: seed.or_zero(t.a),
        b: seed.or_zero(t.b),
        c: seed.or_zero(t.c),
    }
}

// The ends of the ranges.
pub(crate) fn at_borders(seed: &mut Seed) -> Triple {
    let ends = random(seed);
    let low = f64_from_bits_with_nan(FACTOR_LOW << 52);
    let high = f64_from_bits_with_nan(FACTOR_HIGH << 52);
    let least = f64_from_bits_with_nan(TERM_LOW << 52);
    let most = f64_from_bits_with_nan(TERM_HIGH << 52);
    let a = seed.either(low, high);
    let end = seed.either(low, -high);
    let b = seed.either(ends.b, end);
    let c = seed.either(least, most);
    Triple {
        a,
        b,
        c: seed.either(c, -c),
    }
}

// A cancelling triple with the sign of the product turned, so that product and term add up.
pub(crate) fn doubling(seed: &mut Seed) -> Triple {
    let t = cancelling(seed);
    Triple { a: -t.a, ..t }
}
