// The power of any two f32. The stages hand on x, y and the backend as the reference's do: a struct of
// the three would be taken apart in each.
ghost use Rattle.std.specs.Prelude.{◌≡◌};
ghost use Rattle.std.specs.Float.Ieee.{neg};
ghost use Rattle.power.specs.Powf as Powf;
ghost use Rattle.power.specs.SpecialCases.{Special, NegativeZero};
ghost use Rattle.power.specs.ExactCases.{ExactCase, rounded_once, true_power};
ghost use Rattle.power.specs.Opposites.{Opposite};

use crate::backend::PowfBackend;
use crate::fallback::fallback;
use crate::fast::fast;
use crate::special::{infinite_base, infinite_exponent, signed, zero_base};
use crate::whole::whole_power;
use pairs::root::sqrtf;

fn bounded(y: f32) -> f32
    ensures { result ≡ Powf.bounded y }
{
    if y > 2533359616.0 {
        4294967296.0
    } else if y < -2533359616.0 {
        -4294967296.0
    } else {
        y
    }
}

#[tactic(auto, unfolding(crate::specs::Powf::general))]
fn general<B: PowfBackend>(x: f32, y: f32, backend: &B) -> f32
    ensures { result ≡ Powf.general (B.PowfBackend.meaning backend.now) x y }
{
    fast(x, bounded(y), backend).unwrap_or_else(|doubt| fallback(doubt, backend))
}

// x is positive and finite, y is finite and not zero.
#[tactic(auto, unfolding(crate::specs::Powf::magnitude))]
fn magnitude<B: PowfBackend>(x: f32, y: f32, backend: &B) -> f32
    ensures { result ≡ Powf.magnitude (B.PowfBackend.meaning backend.now) x y }
{
    if y == 1.0 {
        x
    } else if y == 2.0 {
        x * x
    } else if y == 0.5 {
        sqrtf(x)
    } else {
        whole_power(x, y, backend).unwrap_or_else(|| general(x, y, backend))
    }
}

// x and y are finite and not zero.
#[tactic(auto, unfolding(crate::specs::Powf::ordinary, std::specs::Prelude::from_bits))]
fn ordinary<B: PowfBackend>(x: f32, y: f32, backend: &B) -> f32
    ensures { result ≡ Powf.ordinary (B.PowfBackend.meaning backend.now) x y }
{
    if x < 0.0 {
        if backend.integerf(y) {
            signed(backend.odd_integerf(y), magnitude(-x, y, backend))
        } else {
            f32::NAN
        }
    } else {
        magnitude(x, y, backend)
    }
}

#[tactic(auto, unfolding(crate::specs::Powf::power, std::specs::Prelude::from_bits))]
fn powf_gen<B: PowfBackend>(x: f32, y: f32, backend: &B) -> f32
    ensures { result ≡ Powf.power (B.PowfBackend.meaning backend.now) x y }
{
    if y == 0.0 || x == 1.0 {
        return 1.0;
    }
    if x.is_nan() || y.is_nan() {
        return f32::NAN;
    }
    if y.is_infinite() {
        return infinite_exponent(x, y);
    }
    if x.is_infinite() {
        return infinite_base(x, y, backend);
    }
    if x == 0.0 {
        return zero_base(x, y, backend);
    }
    ordinary(x, y, backend)
}

// x^y on the backend that the caller names.
pub fn f_powf<B: PowfBackend>(x: f32, y: f32, backend: &B) -> f32
    ensures value { result ≡ Powf.power (B.PowfBackend.meaning backend.now) x y }
    ensures special { Special x y result }
    ensures negative_zero { NegativeZero x y result }
    ensures exact { (c : ExactCase x y) → result ≡ rounded_once (true_power c) }
    ensures opposite { Opposite x y result (Powf.power (B.PowfBackend.meaning backend.now) (neg x) y) }
{
    powf_gen(x, y, backend)
}
