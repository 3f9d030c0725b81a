// The first reduction of a positive x: x = 2^exponent m with m from 1 to below 2, and
// m r = 1 + dx for the table's r, so that log2 x = exponent - log2 r + log2 (1 + dx).
ghost use Rattle.std.specs.Prelude.{◌≡◌};
ghost use Rattle.power.specs.Reduction as Reduction;

use crate::backend::PowfBackend;
use crate::lookup::{Place, f64_of, range_reduction};
use crate::polynomial::polyeval6;
use std::marker::Model;

// The bits of a normal x, and what its exponent field exceeds the exponent by.
#[derive(Clone, Copy)]
pub struct Scaled {
    pub bits: u32,
    pub bias: f64,
}

// m r - 1: a value of f64 from -2^-8 to below 2^-7, and a multiple of 2^-31.
#[derive(Clone, Copy)]
pub struct Argument {
    value: f64,
}

// Clauses see the number.
impl Model for Argument {
    ghost use Rattle.std.specs.Prelude.{Float};

    ghost Value = { Float };

    ghost use Rattle.power.specs.Reduction.{Small};

    ghost view = { λ a. a.value };

    ghost invariant = { λ a. Small a.value };

    ghost inverse = { λ x. record { value = x } };
}

impl Argument {
    pub(crate) fn value(self) -> f64
        ensures { result ≡ self }
    {
        self.value
    }
}

// `p` is log2 (1 + dx) / dx, nearly.
#[derive(Clone, Copy)]
pub struct Reduced {
    pub index: Place<128>,
    pub exponent: f64,
    pub dx: Argument,
    pub p: f64,
}

// A subnormal x is scaled by 2^64.
#[tactic(auto, unfolding(crate::specs::Reduction::normalize))]
pub(crate) fn normalize(x: f32) -> Scaled
    ensures { result ≡ Reduction.normalize x }
{
    if x < f32::MIN_POSITIVE {
        Scaled {
            bits: std::num::f32_to_bits_with_nan(x * 18446744073709551616.0),
            bias: 191.0,
        }
    } else {
        Scaled {
            bits: std::num::f32_to_bits_with_nan(x),
            bias: 127.0,
        }
    }
}

fn index(bits: u32) -> Place<128>
    ensures { result ≡ Reduction.index bits }
{
    Place::new(((bits & 0x7f_ffff) >> 16) as usize)
}

fn significand(bits: u32) -> f64
    ensures { result ≡ Reduction.significand bits }
{
    f64_of((u64::from(bits & 0x7f_ffff) << 29) | 0x3ff0_0000_0000_0000)
}

// m r - 1, exact.
#[tactic(auto, using(crate::proofs::Range::first_range), unfolding(crate::specs::Reduction::dx))]
fn reduced_argument<B: PowfBackend>(bits: u32, backend: &B) -> Argument
    ensures { result ≡ Reduction.dx (B.PowfBackend.meaning backend.now).scalar bits }
{
    Argument {
        value: backend.fma(significand(bits), range_reduction(index(bits)), -1.0),
    }
}

// log2 (1 + dx) / dx, as bit patterns from the constant term up.
const LOG_POLY: [u64; 6] = [
    0x3ff7_1547_652b_82fe,
    0xbfe7_1547_652b_7a07,
    0x3fde_c709_dc45_8db1,
    0xbfd7_1547_9c22_66c9,
    0x3fd2_776a_e1dd_f8f0,
    0xbfce_7b21_7887_0157,
];

// One line over `polyeval6`, to tie this list of coefficients to its definition.
fn log_poly<B: PowfBackend>(dx: f64, backend: &B) -> f64
    ensures { result ≡ Reduction.log_poly (B.PowfBackend.meaning backend.now).scalar dx }
{
    polyeval6(dx, LOG_POLY.map(f64_of), backend)
}

impl Scaled {
    fn exponent(self) -> f64
        ensures { result ≡ Reduction.exponent self }
    {
        f64::from((self.bits >> 23) & 0xff) - self.bias
    }

    #[tactic(auto, unfolding(crate::specs::Reduction::reduce))]
    pub(crate) fn reduce<B: PowfBackend>(self, backend: &B) -> Reduced
        ensures { result ≡ Reduction.reduce (B.PowfBackend.meaning backend.now).scalar self }
    {
        let dx = reduced_argument(self.bits, backend);
        Reduced {
            index: index(self.bits),
            exponent: self.exponent(),
            dx,
            p: log_poly(dx.value(), backend),
        }
    }
}

// The contract is the rule that the table of r's keeps to; the body computes nothing.
#[tactic(auto, using(crate::proofs::Range::reduction_rule))]
pub fn range_rule()
    ensures { Reduction.ReductionRule }
{}
