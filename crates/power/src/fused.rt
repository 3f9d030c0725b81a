// The fused backend: it stands for a processor with fma, by additions and multiplications alone.
ghost use Rattle.pairs.specs.Fused.{fused_sum};
ghost use Rattle.power.specs.Backend.{fused as fused_arithmetic};
ghost use Rattle.std.proofs.Common.{lit≤};
ghost use Rattle.power.specs.Lemmas.Away.{away};
ghost use Rattle.power.specs.Lemmas.ExponentTests.{tells-whole, tells-odd};
ghost use Rattle.power.specs.Lemmas.FmaProducts.{fma-products};
ghost use Rattle.power.specs.Lemmas.FusedRule.{fused-rule};

use crate::backend::PowfBackend;
use pairs::double_double::{DoubleDouble, Fma};
use pairs::fused::fused_sum;
use pairs::rounding::round;
use pairs::whole::{is_integerf, is_odd_integerf};

#[derive(Clone, Copy)]
pub struct Fused {}

// One call in each of the two traits: the pairs know no backend.
impl Fma for Fused {
    ghost fused = { λ _. fused_sum };

    fn fma(&self, a: f64, b: f64, c: f64) -> f64 {
        fused_sum(a, b, c)
    }
}

impl PowfBackend for Fused {
    ghost meaning = { λ _. fused_arithmetic };

    ghost rules = { λ b.
        record {
          scalar = record {
            whole_told = tells-whole;
            odd_told = tells-odd;
            round_away = λ x X. away x X.0;
            fma_exact = fused-rule;
            err_least = lit≤ tt;
            err_most = lit≤ tt;
          };
          products = fma-products fused_sum fused-rule;
        } };

    fn fma(&self, x: f64, y: f64, z: f64) -> f64 {
        fused_sum(x, y, z)
    }

    // These three are one call each on both backends. A body in the trait could not be proved of every
    // meaning, and a wrapper with a second trait would say more than it saves.
    fn integerf(&self, y: f32) -> bool {
        is_integerf(y)
    }

    fn odd_integerf(&self, y: f32) -> bool {
        is_odd_integerf(y)
    }

    fn round(&self, x: f64) -> f64 {
        round(x)
    }

    fn quick_mult(&self, x: DoubleDouble, y: DoubleDouble) -> DoubleDouble {
        DoubleDouble::quick_mult_fma(x, y, self)
    }

    fn quick_mult_f64(&self, x: DoubleDouble, y: f64) -> DoubleDouble {
        DoubleDouble::quick_mult_f64_fma(x, y, self)
    }

    fn err(&self) -> u64 {
        64
    }
}
