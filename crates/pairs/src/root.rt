// The square root of an f32, correctly rounded, by integers. The library's root has this contract
// and is the processor's; the product has a root of its own.
//
// A positive f32 is n 4^j for some j and a whole n of 47 or 48 binary digits. The root of n has 24
// digits before the point, as many as an f32 keeps, so the result is the whole number nearest to
// it. No root of a whole number lies halfway between two whole numbers.
ghost use Rattle.std.specs.Prelude.{◌≡◌, ◌*◌, ◌^◌, ◌<◌};
ghost use Rattle.pairs.specs.Root.{Parts, NearestRoot};
ghost use Rattle.std.specs.Float.{sqrt, binary32};

use crate::bits::{FIELD_ONE_F32, INFINITY_F32};

// significand 2^(exponent - 172), with a significand of exactly 24 binary digits.
#[derive(Clone, Copy)]
struct Scaled {
    significand: u32,
    exponent: u32,
}

impl Scaled {
    // The positive f32 of pattern b.
    fn from_pattern(b: u32) -> Scaled
        requires positive { 0 < b }
        requires finite { b < 255 * 2 ^ 23 }
        ensures { Parts b result.significand result.exponent }
    {
        if b < FIELD_ONE_F32 {
            let shift = b.leading_zeros() - 8;
            Scaled {
                significand: b << shift,
                exponent: 23 - shift,
            }
        } else {
            Scaled {
                significand: b % FIELD_ONE_F32 + FIELD_ONE_F32,
                exponent: b / FIELD_ONE_F32 + 22,
            }
        }
    }
}

// The whole number nearest to the root of n.
fn nearest_root(n: u64) -> u64
    requires { 0 < n }
    ensures { NearestRoot n result }
{
    let root = n.isqrt();
    if n - root * root > root {
        root + 1
    } else {
        root
    }
}

// The f32 nearest to the root of x; NaN for a negative x, and ±0 at ±0.
pub fn sqrtf(x: f32) -> f32
    ensures { result ≡ sqrt binary32 x }
{
    if x == 0.0 {
        return x;
    }
    if !(0.0 < x) {
        return f32::NAN;
    }
    let b = x.to_bits();
    if b >= INFINITY_F32 {
        return x;
    }
    let Scaled {
        significand,
        exponent,
    } = Scaled::from_pattern(b);
    let root = nearest_root(u64::from(significand) << (24 - exponent % 2));
    f32::from_bits((exponent + 103) / 2 * FIELD_ONE_F32 + root as u32)
}
