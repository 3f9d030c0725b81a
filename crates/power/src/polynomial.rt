// The polynomials, written once for every arithmetic that multiplies and multiply-adds.
ghost use Rattle.std.specs.Prelude.{◌≡◌};
ghost use Rattle.power.specs.Polynomial.{Ops, on_f64, on_pairs, six_of, ten_of};

use crate::backend::PowfBackend;
use pairs::double_double::DoubleDouble;

// A number that is multiplied on a backend.
pub trait Number<B>: Copy {
    ghost ops: { B → Ops Self };

    fn times(self, y: Self, backend: &B) -> Self
        ensures { result ≡ (ops backend.now).times self y };

    // self y + z
    fn times_add(self, y: Self, z: Self, backend: &B) -> Self
        ensures { result ≡ (ops backend.now).times_add self y z };
}

impl<B: PowfBackend> Number<B> for f64 {
    ghost ops = { λ b. on_f64 (B.PowfBackend.meaning b).scalar };

    fn times(self, y: f64, _backend: &B) -> f64 {
        self * y
    }

    fn times_add(self, y: f64, z: f64, backend: &B) -> f64 {
        backend.fma(self, y, z)
    }
}

impl<B: PowfBackend> Number<B> for DoubleDouble {
    ghost ops = { λ b. on_pairs (B.PowfBackend.meaning b).products };

    fn times(self, y: DoubleDouble, backend: &B) -> DoubleDouble {
        backend.quick_mult(self, y)
    }

    fn times_add(self, y: DoubleDouble, z: DoubleDouble, backend: &B) -> DoubleDouble {
        DoubleDouble::plus_product(backend.quick_mult(self, y), z)
    }
}

// a0 + a1 x + .. + a5 x^5. The two lengths differ in the order of operations, on which the bits depend.
#[tactic(auto, using(std::proofs::lemmas::List::get_or_default), unfolding(crate::specs::Polynomial::six))]
pub(crate) fn polyeval6<B, N: Number<B>>(x: N, a: [N; 6], backend: &B) -> N
    ensures { result ≡ six_of (N.Number.ops backend.now) x a }
{
    let [a0, a1, a2, a3, a4, a5] = a;
    let q = x.times(x, backend);
    let c0 = x.times_add(a1, a0, backend);
    let c1 = x.times_add(a3, a2, backend);
    let c2 = x.times_add(a5, a4, backend);
    q.times_add(q.times_add(c2, c1, backend), c0, backend)
}

// a0 + a1 x + .. + a9 x^9.
#[tactic(auto, using(std::proofs::lemmas::List::get_or_default), unfolding(crate::specs::Polynomial::ten))]
pub(crate) fn polyeval10<B, N: Number<B>>(x: N, a: [N; 10], backend: &B) -> N
    ensures { result ≡ ten_of (N.Number.ops backend.now) x a }
{
    let [a0, a1, a2, a3, a4, a5, a6, a7, a8, a9] = a;
    let x2 = x.times(x, backend);
    let x4 = x2.times(x2, backend);
    let x8 = x4.times(x4, backend);
    let p0 = x.times_add(a1, a0, backend);
    let p1 = x.times_add(a3, a2, backend);
    let p2 = x.times_add(a5, a4, backend);
    let p3 = x.times_add(a7, a6, backend);
    let p4 = x.times_add(a9, a8, backend);
    let q0 = x2.times_add(p1, p0, backend);
    let q1 = x2.times_add(p3, p2, backend);
    let r0 = x4.times_add(q1, q0, backend);
    x8.times_add(p4, r0, backend)
}
