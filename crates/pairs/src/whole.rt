// Is an exponent whole, and is it odd: read off the bit pattern, with no conversion to an integer
// that could saturate.
//
// A normal f32 is an odd number times 2^(field + zeros - 150), where `zeros` counts the trailing
// zeros of its significand. So it is whole if field + zeros is at least 150, and odd if it is 150.
// Zero and the subnormals have a field of 0 and at most 23 zeros, so both tests say no.
ghost use Rattle.std.specs.Prelude.{◌≡◌, ◌==◌, nat_le};
ghost use Rattle.pairs.specs.Whole.{integerf, odd_integerf};

use crate::bits::INFINITY_F32;

// The exponent field's bits, all ones, under the reference's name for them.
const EXP_MASK_F32: u32 = INFINITY_F32;

const UNIT_EXPONENT: u32 = 150;

// The exponent field of x plus the trailing zeros of its significand.
fn last_place(x: f32) -> u32
    ensures whole { nat_le 150 result ≡ integerf x }
    ensures odd { (result == 150) ≡ odd_integerf x }
{
    let x_u = std::num::f32_to_bits_with_nan(x);
    let x_e = (x_u & EXP_MASK_F32) >> 23;
    let lsb = (x_u | EXP_MASK_F32).trailing_zeros();
    x_e + lsb
}

// Whether x is whole. It says no at ±0, and yes at ±∞ and NaN.
pub fn is_integerf(x: f32) -> bool
    ensures { result ≡ integerf x }
{
    last_place(x) >= UNIT_EXPONENT
}

// Whether x is odd. It says no at ±0, ±∞ and NaN.
pub fn is_odd_integerf(x: f32) -> bool
    ensures { result ≡ odd_integerf x }
{
    last_place(x) == UNIT_EXPONENT
}
