// From f64 to f32, to the nearest, ties to even, on the bit pattern. The library's conversion has this
// contract; with it and the library's rounding a power took half as long again.
ghost use Rattle.std.specs.Prelude.{◌≡◌, ◌^◌, ◌<◌, ◌≤◌};
ghost use Rattle.std.specs.Float.Ieee.Nearest.{closest};
ghost use Rattle.std.specs.Float.{round_to_format, binary32};
ghost use Rattle.pairs.specs.Narrowing.{Narrowed};

use crate::bits::{FIELD_ONE_F64, INFINITY_F32, SIGN_F64};

// 2^-126, the smallest normal f32.
const NORMAL: u64 = 0x3810_0000_0000_0000;

// 2^128, above every f32.
const OVERFLOW: u64 = 0x47f0_0000_0000_0000;

// 896, by which the biases of the exponent fields differ, in the place of the field.
const REBIAS: u64 = 0x3800_0000_0000_0000;

// t / 2^shift to the nearest whole number, ties to even.
fn nearest_even(t: u64, shift: u64) -> u64
    requires size { t < 2 ^ 63 }
    requires some { 0 < shift }
    requires few { shift < 63 }
    ensures { result ≡ closest t (2 ^ shift) }
{
    let half = 1 << (shift - 1);
    let odd = (t >> shift) & 1;
    (t + (half - 1) + odd) >> shift
}

// Below 2^-126 the last place is that of 2^-149, and the significand is shifted to it.
fn subnormal_size(size: u64) -> u32
    requires { size < 0x3810_0000_0000_0000 }
    ensures { Narrowed size result }
{
    let field = size >> 52;
    if field < 873 {
        // below half of 2^-149
        return 0;
    }
    let significand = FIELD_ONE_F64 + size % FIELD_ONE_F64;
    nearest_even(significand, 926 - field) as u32
}

// The pattern of the f32 nearest to the f64 of the pattern `size`, which is infinity's at most.
fn narrow_size(size: u64) -> u32
    requires { size ≤ 0x7ff0_0000_0000_0000 }
    ensures { Narrowed size result }
{
    if size < NORMAL {
        subnormal_size(size)
    } else if size < OVERFLOW {
        // a carry goes into the exponent, up to infinity's
        nearest_even(size - REBIAS, 29) as u32
    } else {
        INFINITY_F32
    }
}

// The f32 nearest to x.
pub fn narrow(x: f64) -> f32
    ensures { result ≡ round_to_format binary32 x }
{
    if x.is_nan() {
        return f32::NAN;
    }
    let bits = x.to_bits();
    let sign = (bits >> 63 << 31) as u32;
    f32::from_bits(sign + narrow_size(bits % SIGN_F64))
}
