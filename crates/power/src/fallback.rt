// The power in pairs of doubles, where the fast path leaves its last bit open.
ghost use Rattle.std.specs.Prelude.{◌≡◌};
ghost use Rattle.power.specs.Fallback as Fallback;

use crate::backend::PowfBackend;
use crate::fast::{Doubt, hi_bits, mid_place, scale};
use crate::lookup::{Place, exp2_mid, f64_of, log2_r_td, log2_r2_dd, powf_r2};
use crate::polynomial::{polyeval6, polyeval10};
use crate::reduction::Argument;
use pairs::bits::biased_exponent_f64;
use pairs::double_double::DoubleDouble;
use pairs::narrowing::narrow;

// The index of the second reduction.
#[tactic(auto, using(crate::proofs::Places::place_small), unfolding(crate::specs::Fallback::place))]
fn place<B: PowfBackend>(dx: Argument, backend: &B) -> Place<193>
    ensures { result ≡ Fallback.place (B.PowfBackend.meaning backend.now).scalar dx }
{
    Place::new(std::num::saturating_f64_to_usize(backend.round(backend.fma(
        dx.value(),
        16384.0,
        64.0,
    ))))
}

// (1 + dx) r - 1, for the second table's r.
fn dx2<B: PowfBackend>(dx: Argument, i: Place<193>, backend: &B) -> f64
    ensures { result ≡ Fallback.dx2 (B.PowfBackend.meaning backend.now).scalar dx i }
{
    backend.fma(1.0 + dx.value(), powf_r2(i), -1.0)
}

// log2 (1 + x) / x, as bit patterns from the constant term up.
const LOG_POLY: [(u64, u64); 6] = [
    (0x3c77_77d0_ffda_25e0, 0x3ff7_1547_652b_82fe),
    (0xbc67_77d1_01cf_0a84, 0xbfe7_1547_652b_82fe),
    (0x3c7c_e04b_5140_d867, 0x3fde_c709_dc3a_03fd),
    (0x3c71_37b4_7e63_5be5, 0xbfd7_1547_652b_82fb),
    (0xbc5b_5a30_b3bd_b318, 0x3fd2_776c_516a_92a2),
    (0x3c62_d2fb_d081_e657, 0xbfce_c70a_f192_9ca6),
];

// One line over `polyeval6`, to tie this list of coefficients to its definition.
fn log_poly<B: PowfBackend>(x: f64, backend: &B) -> DoubleDouble
    ensures { result ≡ Fallback.log_poly (B.PowfBackend.meaning backend.now).products x }
{
    polyeval6(
        DoubleDouble::new(0.0, x),
        LOG_POLY.map(DoubleDouble::from_bit_pair),
        backend,
    )
}

fn larger_exponent(a: f64, b: f64) -> bool
    ensures { result ≡ Fallback.larger_exponent a b }
{
    biased_exponent_f64(a) >= biased_exponent_f64(b)
}

// a + b, the one of the larger exponent first.
fn ordered_add(a: DoubleDouble, b: DoubleDouble) -> DoubleDouble
    ensures { result ≡ Fallback.ordered_add a b }
{
    if larger_exponent(a.hi, b.hi) {
        DoubleDouble::add(a, b)
    } else {
        DoubleDouble::add(b, a)
    }
}

// log2 (1 + dx2).
#[tactic(auto, unfolding(crate::specs::Fallback::log_low))]
fn log_low<B: PowfBackend>(dx: Argument, i: Place<193>, backend: &B) -> DoubleDouble
    ensures { result ≡ Fallback.log_low (B.PowfBackend.meaning backend.now) dx i }
{
    let d = dx2(dx, i, backend);
    backend.quick_mult_f64(log_poly(d, backend), d)
}

// -log2 of the second table's r, and the low parts of -log2 of the first's.
#[tactic(auto, unfolding(crate::specs::Fallback::log_mid))]
fn log_mid(index: Place<128>, i: Place<193>) -> DoubleDouble
    ensures { result ≡ Fallback.log_mid index i }
{
    let td = log2_r_td(index);
    DoubleDouble::add(log2_r2_dd(i), DoubleDouble::new(td.0, td.1))
}

// 2^(x/64), as bit patterns from the constant term up.
const EXP_POLY: [(u64, u64); 10] = [
    (0x0000_0000_0000_0000, 0x3ff0_0000_0000_0000),
    (0x3c1a_bc9e_3b39_8024, 0x3f86_2e42_fefa_39ef),
    (0xbba5_e43a_5429_bddb, 0x3f0e_bfbd_ff82_c58f),
    (0xbb2d_3316_2491_268f, 0x3e8c_6b08_d704_a0c0),
    (0x3a94_fb32_d240_a14e, 0x3e03_b2ab_6fba_4e77),
    (0x39ee_84e9_16be_83e0, 0x3d75_d87f_e78a_6731),
    (0xb989_a447_bfdd_c5e6, 0x3ce4_3091_2f86_bfb8),
    (0xb8e3_1a55_719d_e47f, 0x3c4f_fcbf_c588_ded9),
    (0xb850_ba57_164e_b36b, 0x3bb6_2c03_4beb_8339),
    (0xb7b8_483e_abd9_642d, 0x3b1b_5251_ff97_bee1),
];

// One line over `polyeval10`, to tie this list of coefficients to its definition.
fn exp_poly<B: PowfBackend>(x: DoubleDouble, backend: &B) -> DoubleDouble
    ensures { result ≡ Fallback.exp_poly (B.PowfBackend.meaning backend.now).products x }
{
    polyeval10(x, EXP_POLY.map(DoubleDouble::from_bit_pair), backend)
}

fn scale_low(k: u64) -> f64
    ensures { result ≡ Fallback.scale_low k }
{
    let i = mid_place(k);
    if i.index() == 0 {
        0.0
    } else {
        f64_of(hi_bits(k).wrapping_add(exp2_mid(i).0))
    }
}

// `hi` stands at a possible tie of f32: move it by one pattern towards `lo`. Signs are read off the patterns,
// as the reference does: those of zeros count.
fn nudged(hi: f64, lo: f64) -> f64
    ensures { result ≡ Fallback.nudged hi lo }
{
    let b = std::num::f64_to_bits_with_nan(hi);
    if b >> 63 == std::num::f64_to_bits_with_nan(lo) >> 63 {
        f64_of(b.wrapping_add(1))
    } else if b & 0xf_ffff_ffff_ffff > 0 {
        f64_of(b.wrapping_sub(1))
    } else {
        hi
    }
}

#[tactic(auto, unfolding(crate::specs::Fallback::settled, std::specs::Prelude::from_bits))]
fn settled(r: DoubleDouble) -> f64
    ensures { result ≡ Fallback.settled r }
{
    if r.hi.is_nan() {
        return f64::NAN;
    }
    if std::num::f64_to_bits_with_nan(r.hi) & 0xfff_ffff != 0 || r.lo == 0.0 {
        return r.hi;
    }
    if r.lo.is_nan() {
        f64::NAN
    } else {
        nudged(r.hi, r.lo)
    }
}

// e 2^(x/64).
#[tactic(auto, unfolding(crate::specs::Fallback::scaled))]
fn scaled<B: PowfBackend>(e: DoubleDouble, x: DoubleDouble, backend: &B) -> f64
    ensures { result ≡ Fallback.scaled (B.PowfBackend.meaning backend.now).products e x }
{
    let rr = backend.quick_mult(e, exp_poly(x, backend));
    settled(DoubleDouble::from_exact_add(rr.hi, rr.lo))
}

fn either_nan(a: f64, b: f64) -> bool
    ensures { result ≡ Fallback.either_nan a b }
{
    a.is_nan() || b.is_nan()
}

#[tactic(auto, unfolding(crate::specs::Fallback::finished, std::specs::Prelude::from_bits))]
fn finished<B: PowfBackend>(d: &Doubt, log: DoubleDouble, backend: &B) -> f64
    ensures { result ≡ Fallback.finished (B.PowfBackend.meaning backend.now).products d.now log }
{
    let prod = backend.quick_mult_f64(log, d.y6);
    if either_nan(prod.hi, d.high) {
        return f64::NAN;
    }
    let lo6 = ordered_add(prod, DoubleDouble::new(0.0, d.high));
    scaled(
        DoubleDouble::new(scale_low(d.count), scale(d.count)),
        lo6,
        backend,
    )
}

#[tactic(auto, unfolding(crate::specs::Fallback::powf_dd, std::specs::Prelude::from_bits))]
fn powf_dd<B: PowfBackend>(d: &Doubt, backend: &B) -> f64
    ensures { result ≡ Fallback.powf_dd (B.PowfBackend.meaning backend.now) d.now }
{
    let i = place(d.reduced.dx, backend);
    let low = log_low(d.reduced.dx, i, backend);
    let mid = log_mid(d.reduced.index, i);
    if either_nan(mid.hi, low.hi) {
        return f64::NAN;
    }
    finished(d, ordered_add(mid, low), backend)
}

#[tactic(auto, unfolding(crate::specs::Fallback::fallback))]
pub(crate) fn fallback<B: PowfBackend>(d: Doubt, backend: &B) -> f32
    ensures { result ≡ Fallback.fallback (B.PowfBackend.meaning backend.now) d }
{
    narrow(powf_dd(&d, backend))
}
