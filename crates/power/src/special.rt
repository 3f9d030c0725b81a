// The answers at zeros, infinities and NaN.
ghost use Rattle.std.specs.Prelude.{◌≡◌};
ghost use Rattle.power.specs.Special as Special;

use crate::backend::PowfBackend;

pub(crate) fn signed(negative: bool, x: f32) -> f32
    ensures { result ≡ Special.signed negative x }
{
    if negative { -x } else { x }
}

// y is an infinity.
pub(crate) fn infinite_exponent(x: f32, y: f32) -> f32
    ensures { result ≡ Special.infinite_exponent x y }
{
    let size = x.abs();
    if size == 1.0 {
        1.0
    } else if (1.0 < size) == (0.0 < y) {
        f32::INFINITY
    } else {
        0.0
    }
}

// x is an infinity and y is finite.
pub(crate) fn infinite_base<B: PowfBackend>(x: f32, y: f32, backend: &B) -> f32
    ensures { result ≡ Special.infinite_base (B.PowfBackend.meaning backend.now).scalar x y }
{
    let negative = x < 0.0 && backend.odd_integerf(y);
    signed(negative, if 0.0 < y { f32::INFINITY } else { 0.0 })
}

// Whether negative zero keeps its sign at y.
fn keeps_sign<B: PowfBackend>(y: f32, backend: &B) -> bool
    ensures { result ≡ Special.keeps_sign (B.PowfBackend.meaning backend.now).scalar y }
{
    y == 1.0 || (2.0 < y && y < 24.0 && backend.odd_integerf(y))
}

// x is a zero and y is finite.
pub(crate) fn zero_base<B: PowfBackend>(x: f32, y: f32, backend: &B) -> f32
    ensures { result ≡ Special.zero_base (B.PowfBackend.meaning backend.now).scalar x y }
{
    if y < 0.0 {
        return f32::INFINITY;
    }
    // by the pattern: `is_sign_negative` asks that x is no NaN, which is not asked here
    let negative = std::num::f32_to_bits_with_nan(x) == 0x8000_0000;
    signed(negative && keeps_sign(y, backend), 0.0)
}
