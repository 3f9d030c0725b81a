// Bit patterns: their fields, and the patterns that the crate tests and builds.
ghost use Rattle.std.specs.Prelude.{◌≡◌, ◌/◌, ◌%◌, ◌^◌};
ghost use Rattle.pairs.specs.Bits.{exponent_field, significant_bits};

// The sign's bit.
pub(crate) const SIGN_F64: u64 = 0x8000_0000_0000_0000;

// One in the exponent field, which is the leading bit of a normal significand too.
pub(crate) const FIELD_ONE_F64: u64 = 0x0010_0000_0000_0000;

pub(crate) const FIELD_ONE_F32: u32 = 0x0080_0000;

// The exponent field full of ones: infinity's pattern. Those below it are the finite values that are not negative.
pub(crate) const INFINITY_F32: u32 = 0x7f80_0000;

// The exponent field of a pattern.
pub(crate) fn field_f64(bits: u64) -> u64
    ensures { result ≡ bits / 2 ^ 52 % 2 ^ 11 }
{
    (bits >> 52) & 0x7ff
}

// The exponent field of x: 0 for zero and subnormals, 2047 for infinities and NaN.
#[tactic(auto, unfolding(crate::specs::Bits::exponent_field))]
pub fn biased_exponent_f64(x: f64) -> u64
    ensures { result ≡ exponent_field x }
{
    field_f64(std::num::f64_to_bits_with_nan(x))
}

// How many bits x has from its leading one to its last: 0 for zero, infinities and NaN.
pub fn significant_bits(x: f32) -> u32
    ensures { result ≡ significant_bits x }
{
    let x_abs = std::num::f32_to_bits_with_nan(x) & 0x7fff_ffff;
    if x_abs == 0 || x_abs >= INFINITY_F32 {
        return 0;
    }
    let digits = if x_abs < FIELD_ONE_F32 {
        x_abs
    } else {
        (x_abs & 0x7f_ffff) | FIELD_ONE_F32
    };
    32 - digits.leading_zeros() - digits.trailing_zeros()
}
