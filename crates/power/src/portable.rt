// The portable backend: a product is rounded, and then the sum.
ghost use Rattle.power.specs.Backend.{portable as portable_arithmetic};
ghost use Rattle.std.proofs.Common.{lit≤};
ghost use Rattle.power.specs.Lemmas.Exact.{twice-rounded};
ghost use Rattle.power.specs.Lemmas.Away.{away};
ghost use Rattle.power.specs.Lemmas.ExponentTests.{tells-whole, tells-odd};
ghost use Rattle.power.specs.Lemmas.PairProducts.{quick-zero-left, quick-zero-right, quick-one-right, quick-zero-left-f64, quick-zero-right-f64};

use crate::backend::PowfBackend;
use pairs::double_double::DoubleDouble;
use pairs::rounding::round;
use pairs::whole::{is_integerf, is_odd_integerf};

#[derive(Clone, Copy)]
pub struct Portable {}

impl PowfBackend for Portable {
    ghost meaning = { λ _. portable_arithmetic };

    ghost rules = { λ b.
        record {
          scalar = record {
            whole_told = tells-whole;
            odd_told = tells-odd;
            round_away = λ x X. away x X.0;
            fma_exact = λ x y z p r X Y Z. twice-rounded x y z p r X.0 Y.0 Z.0;
            err_least = lit≤ tt;
            err_most = lit≤ tt;
          };
          products = record {
            zero_left = quick-zero-left;
            zero_right = quick-zero-right;
            one_right = quick-one-right;
            zero_left_f64 = quick-zero-left-f64;
            zero_right_f64 = quick-zero-right-f64;
          };
        } };

    fn fma(&self, x: f64, y: f64, z: f64) -> f64 {
        x * y + z
    }

    // These three are one call each on both backends. A body in the trait could not be proved of every
    // meaning, and a wrapper with a second trait would say more than it saves.
    fn integerf(&self, y: f32) -> bool {
        is_integerf(y)
    }

    fn odd_integerf(&self, y: f32) -> bool {
        is_odd_integerf(y)
    }

    fn round(&self, x: f64) -> f64 {
        round(x)
    }

    fn quick_mult(&self, x: DoubleDouble, y: DoubleDouble) -> DoubleDouble {
        DoubleDouble::quick_mult(x, y)
    }

    fn quick_mult_f64(&self, x: DoubleDouble, y: f64) -> DoubleDouble {
        DoubleDouble::quick_mult_f64(x, y)
    }

    fn err(&self) -> u64 {
        128
    }
}
