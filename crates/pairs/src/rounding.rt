// Rounding to a whole number on the bit pattern. The library's rounding has this contract; with it and the
// library's conversion to f32 a power took half as long again.
ghost use Rattle.std.specs.Prelude.{◌≡◌};
ghost use Rattle.std.specs.Float.{float_round, binary64};

use crate::bits::{SIGN_F64, field_f64};

// 1.0
const ONE: u64 = 0x3ff0_0000_0000_0000;

// The nearest whole number, halves away from zero, with the sign of x.
pub fn round(x: f64) -> f64
    ensures { result ≡ float_round binary64 x }
{
    let bits = std::num::f64_to_bits_with_nan(x);
    match field_f64(bits) {
        // below a half
        ..1022 => std::num::f64_from_bits_with_nan(bits & SIGN_F64),
        // below one
        1022 => std::num::f64_from_bits_with_nan((bits & SIGN_F64) | ONE),
        // below 2^52
        field @ 1023..1075 => {
            let fraction = 0x000f_ffff_ffff_ffff >> (field - 1023);
            let half = 0x0008_0000_0000_0000 >> (field - 1023);
            std::num::f64_from_bits_with_nan((bits + half) & !fraction)
        }
        // every value is whole, or it is an infinity or a NaN
        _ => x,
    }
}
