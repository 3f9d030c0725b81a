// The power of a positive x in f64: 2^(y log2 x) by tables and polynomials, and the rounding test.
ghost use Rattle.std.specs.Prelude.{◌≡◌, bit_and};
ghost use Rattle.power.specs.Fast as Fast;

use crate::backend::PowfBackend;
use crate::lookup::{Place, exp2_mid, f64_of, log2_r, log2_r_td};
use crate::polynomial::polyeval6;
use crate::reduction::{Reduced, normalize};
use pairs::narrowing::narrow;

// What the fallback goes on from: 64 y, the high part of 64 y log2 x beyond the whole number h
// next to it, and 2^16 + h.
#[derive(Clone, Copy)]
pub struct Doubt {
    pub reduced: Reduced,
    pub y6: f64,
    pub high: f64,
    pub count: u64,
}

impl Reduced {
    fn log<B: PowfBackend>(&self, backend: &B) -> f64
        ensures { result ≡ Fast.log (B.PowfBackend.meaning backend.now).scalar self.now }
    {
        backend.fma(self.dx.value(), self.p, log2_r(self.index) + self.exponent)
    }

    fn rest_high<B: PowfBackend>(&self, y6: f64, h: f64, backend: &B) -> f64
        ensures { result ≡ Fast.rest_high (B.PowfBackend.meaning backend.now).scalar self.now y6 h }
    {
        let td = log2_r_td(self.index);
        backend.fma(y6, self.exponent + td.2, -h)
    }

    fn rest<B: PowfBackend>(&self, y6: f64, high: f64, backend: &B) -> f64
        ensures { result ≡ Fast.rest (B.PowfBackend.meaning backend.now).scalar self.now y6 high }
    {
        let td = log2_r_td(self.index);
        backend.fma(y6, backend.fma(self.dx.value(), self.p, td.1), high)
    }
}

fn y64(y: f32) -> f64
    ensures { result ≡ Fast.y64 y }
{
    std::num::f32_to_f64_with_nan(y * 64.0)
}

// No twin of `bounded`, which puts another value than its border.
fn clamped(h: f64) -> f64
    ensures { result ≡ Fast.clamped h }
{
    h.clamp(-32768.0, 32768.0)
}

// 2^16 + h, after the clamp and with any fraction cut off.
fn count(h: f64) -> u64
    ensures { result ≡ Fast.count h }
{
    let c = clamped(h);
    let n = u64::from(std::num::saturating_f64_to_u32(c.abs()));
    if c < 0.0 {
        65536u64.saturating_sub(n)
    } else {
        65536 + n
    }
}

// A count k is a bare number: it has no fact to keep, so a type would be no plainer.

// The bits that 2^floor(h/64) adds to a pattern's exponent.
pub(crate) fn hi_bits(k: u64) -> u64
    ensures { result ≡ Fast.hi_bits k }
{
    (k >> 6).wrapping_sub(1024) << 52
}

// Where the table has what 2^(h/64) is beyond 2^floor(h/64).
pub(crate) fn mid_place(k: u64) -> Place<64>
    ensures { result ≡ bit_and k 0x3f }
{
    Place::new((k & 0x3f) as usize)
}

// 2^(h/64).
pub(crate) fn scale(k: u64) -> f64
    ensures { result ≡ Fast.scale k }
{
    f64_of(hi_bits(k).wrapping_add(exp2_mid(mid_place(k)).1))
}

// 2^(x/64), as bit patterns from the constant term up.
const EXP_POLY: [u64; 6] = [
    0x3ff0_0000_0000_0000,
    0x3f86_2e42_fefa_39ef,
    0x3f0e_bfbd_ff82_a23a,
    0x3e8c_6b08_d707_6268,
    0x3e03_b2ad_33f8_b48b,
    0x3d75_d870_c4d8_4445,
];

// One line over `polyeval6`, to tie this list of coefficients to its definition.
fn exp_poly<B: PowfBackend>(x: f64, backend: &B) -> f64
    ensures { result ≡ Fast.exp_poly (B.PowfBackend.meaning backend.now).scalar x }
{
    polyeval6(x, EXP_POLY.map(f64_of), backend)
}

// The rounding test: r is sure where its neighbours at a distance of `err` patterns round to one f32.
#[tactic(auto, unfolding(std::specs::Prelude::from_bits))]
fn tested(err: u64, r: f64, doubt: Doubt) -> Result<f32, Doubt>
    ensures { result ≡ Fast.tested err r doubt }
{
    if r.is_nan() {
        return Ok(f32::NAN);
    }
    let bits = std::num::f64_to_bits_with_nan(r);
    let upper = narrow(f64_of(bits.wrapping_add(err)));
    let lower = narrow(f64_of(bits.wrapping_sub(err)));
    if upper == lower {
        Ok(upper)
    } else {
        Err(doubt)
    }
}

#[tactic(auto, unfolding(crate::specs::Fast::fast, std::specs::Prelude::from_bits))]
pub(crate) fn fast<B: PowfBackend>(x: f32, y: f32, backend: &B) -> Result<f32, Doubt>
    ensures { result ≡ Fast.fast (B.PowfBackend.meaning backend.now).scalar x y }
{
    let reduced = normalize(x).reduce(backend);
    let y6 = y64(y);
    let h = backend.round(reduced.log(backend) * y6);
    if h.is_nan() {
        return Ok(f32::NAN);
    }
    let high = reduced.rest_high(y6, h, backend);
    let low = reduced.rest(y6, high, backend);
    let k = count(h);
    let r = exp_poly(low, backend) * scale(k);
    tested(
        backend.err(),
        r,
        Doubt {
            reduced,
            y6,
            high,
            count: k,
        },
    )
}
