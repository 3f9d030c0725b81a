// A product and a sum with one rounding, by additions and multiplications alone.
//
// The product and each sum but the last come with what their roundings lost. What was lost is
// added up and rounded to odd, so that the last sum rounds as if it had every digit.
ghost use Rattle.std.specs.Prelude.{◌≡◌};
ghost use Rattle.pairs.specs.Value.{Moderate, Bounded};
ghost use Rattle.pairs.specs.Fused.{add_odd, fused_sum, OddSum, ExactFused};

use crate::double_double::DoubleDouble;

// a + b rounded to odd: an inexact sum becomes its neighbour with a last bit of 1.
pub fn add_odd(a: f64, b: f64) -> f64
    ensures value { result ≡ add_odd a b }
    ensures odd { Bounded 2080 a → Bounded 2080 b → OddSum a b result }
{
    let sum = DoubleDouble::from_full_exact_add(a, b);
    let bits = std::num::f64_to_bits_with_nan(sum.hi);
    if sum.lo == 0.0 || sum.lo.is_nan() || bits % 2 == 1 {
        return sum.hi;
    }
    // `next_up` and `next_down` would leave a zero
    let next = if (sum.hi > 0.0) == (sum.lo > 0.0) {
        bits + 1
    } else {
        bits.saturating_sub(1)
    };
    std::num::f64_from_bits_with_nan(next)
}

// a b + c, exact where 53 bits hold it, for factors that are 0 or from 2^-400 to 2^400 in size and a c
// of at most 2^926. The steps are made to round once elsewhere too.
pub fn fused_sum(a: f64, b: f64, c: f64) -> f64
    ensures value { result ≡ fused_sum a b c }
    ensures exact { Moderate a → Moderate b → Bounded 2000 c → ExactFused a b c result }
{
    let product = a * b;
    let plain = product + c;
    if product == 0.0 || !plain.is_finite() {
        // the sign of a zero, and infinities and NaN, are those of the plain sum
        return plain;
    }
    let u = DoubleDouble::from_exact_mult(a, b);
    let t = DoubleDouble::from_full_exact_add(c, u.lo);
    let v = DoubleDouble::from_full_exact_add(u.hi, t.hi);
    v.hi + add_odd(t.lo, v.lo)
}
