// Whole exponents from 3 to 24: products in f64, rounded once to f32.
ghost use Rattle.std.specs.Prelude.{◌≡◌};
ghost use Rattle.std.specs.Bool.{then_some};
ghost use Rattle.power.specs.Whole as Whole;

use crate::backend::PowfBackend;
use pairs::bits::significant_bits;
use pairs::narrowing::narrow;

// The product of n factors x.
fn product(x: f32, n: u32) -> f32
    ensures { result ≡ Whole.product x n }
{
    let x_d = std::num::f32_to_f64_with_nan(x);
    narrow((1..n).fold(x_d, |power, _| power * x_d))
}

fn small_whole<B: PowfBackend>(y: f32, backend: &B) -> bool
    ensures { result ≡ Whole.small_whole (B.PowfBackend.meaning backend.now).scalar y }
{
    2.0 < y && y <= 24.0 && backend.integerf(y)
}

// Whether the product of n factors x is exact in f64, or rounds to f32 as if it were.
fn short(x: f32, n: u32) -> bool
    ensures { result ≡ Whole.short x n }
{
    u64::from(significant_bits(x)) * u64::from(n) <= 25 + 2 * u64::from(n)
}

// x^y by products, where they round once.
pub(crate) fn whole_power<B: PowfBackend>(x: f32, y: f32, backend: &B) -> Option<f32>
    ensures { result ≡ then_some (Whole.multiplies (B.PowfBackend.meaning backend.now).scalar x y) (Whole.whole_power x y) }
{
    // before y is converted, which most exponents need not be
    if !small_whole(y, backend) {
        return None;
    }
    let n = std::num::saturating_f32_to_u32(y);
    short(x, n).then(|| product(x, n))
}
