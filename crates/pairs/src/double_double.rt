// Pairs of doubles. A pair stands for the sum of its parts. The names are the reference's.
//
// A product is given twice, as the reference has two branches: by halves of the factors, and, under a
// name that ends in `_fma`, by a fused multiply-add that the caller lends. The two add up their parts
// in different orders, on which the bits depend. What follows a product is written once.
ghost use Rattle.std.specs.Prelude.{◌≡◌, Float};
ghost use Rattle.pairs.specs.DoubleDouble as Pairs;
ghost use Rattle.pairs.specs.Value.{Moderate, Bounded, Halved, AddsTo, ExactProduct};

#[derive(Clone, Copy)]
pub struct DoubleDouble {
    pub lo: f64,
    pub hi: f64,
}

// A fused multiply-add: one value for each three arguments.
pub trait Fma {
    ghost fused: { Self → Float → Float → Float → Float };

    fn fma(&self, a: f64, b: f64, c: f64) -> f64
        ensures { result ≡ fused self.now a b c };
}

// A product of two pairs, by either branch.
pub trait PairProduct {
    ghost use Rattle.pairs.specs.declared.double_double.DoubleDouble.{DoubleDouble};

    ghost product: { Self → DoubleDouble → DoubleDouble → DoubleDouble };

    fn quick_mult(&self, a: DoubleDouble, b: DoubleDouble) -> DoubleDouble
        ensures { result ≡ product self.now a b };
}

// The product without a fused multiply-add.
#[derive(Clone, Copy)]
pub struct Splitting;

impl PairProduct for Splitting {
    ghost product = { λ _. Pairs.quick_mult };

    fn quick_mult(&self, a: DoubleDouble, b: DoubleDouble) -> DoubleDouble {
        DoubleDouble::quick_mult(a, b)
    }
}

// The product with the fused multiply-add that is lent.
impl<F: Fma> PairProduct for F {
    ghost product = { λ fused. Pairs.quick_mult_fma (F.Fma.fused fused) };

    fn quick_mult(&self, a: DoubleDouble, b: DoubleDouble) -> DoubleDouble {
        DoubleDouble::quick_mult_fma(a, b, self)
    }
}

impl DoubleDouble {
    // `new`, `from_bit_pair` and `add` keep the reference's names, where `From` and `Add` would do.
    pub fn new(lo: f64, hi: f64) -> DoubleDouble
        ensures { result ≡ Pairs.pair lo hi }
    {
        DoubleDouble { lo, hi }
    }

    // The pair of two bit patterns, the low part's first.
    pub fn from_bit_pair(pair: (u64, u64)) -> DoubleDouble
        ensures { result ≡ Pairs.from_bit_pair pair.0 pair.1 }
    {
        DoubleDouble {
            lo: std::num::f64_from_bits_with_nan(pair.0),
            hi: std::num::f64_from_bits_with_nan(pair.1),
        }
    }

    // Two halves of at most 26 bits that add up to a, for an a from 2^-400 to 2^400.
    pub fn split(a: f64) -> DoubleDouble
        ensures value { result ≡ Pairs.split a }
        ensures halves { Moderate a → Halved a result.hi result.lo }
    {
        let t1 = 134217729.0 * a;
        let t2 = a - t1;
        let r_hi = t1 + t2;
        DoubleDouble::new(a - r_hi, r_hi)
    }

    // a + b and a remainder, meant for |a| not below |b|.
    #[tactic(auto, unfolding(crate::specs::DoubleDouble::exact_add))]
    pub fn from_exact_add(a: f64, b: f64) -> DoubleDouble
        ensures { result ≡ Pairs.exact_add a b }
    {
        let r_hi = a + b;
        let t = r_hi - a;
        DoubleDouble::new(b - t, r_hi)
    }

    // a + b and what its rounding lost, whichever of them is larger, up to 2^1016.
    pub fn from_full_exact_add(a: f64, b: f64) -> DoubleDouble
        ensures value { result ≡ Pairs.full_exact_add a b }
        ensures exact { Bounded 2090 a → Bounded 2090 b → AddsTo a b result.hi result.lo }
    {
        let r_hi = a + b;
        let bb = r_hi - a;
        let aa = r_hi - bb;
        DoubleDouble::new((a - aa) + (b - bb), r_hi)
    }

    // a b and what its rounding lost, for such factors.
    pub fn from_exact_mult(a: f64, b: f64) -> DoubleDouble
        ensures value { result ≡ Pairs.exact_mult a b }
        ensures exact { Moderate a → Moderate b → ExactProduct a b result.hi result.lo }
    {
        let asz = DoubleDouble::split(a);
        let bs = DoubleDouble::split(b);
        let r_hi = a * b;
        let t1 = asz.hi * bs.hi - r_hi;
        let t2 = asz.hi * bs.lo + t1;
        let t3 = asz.lo * bs.hi + t2;
        DoubleDouble::new(asz.lo * bs.lo + t3, r_hi)
    }

    #[tactic(auto, unfolding(crate::specs::DoubleDouble::exact_mult_fma))]
    pub fn from_exact_mult_fma<F: Fma>(a: f64, b: f64, fused: &F) -> DoubleDouble
        ensures { result ≡ Pairs.exact_mult_fma (F.Fma.fused fused.now) a b }
    {
        let r_hi = a * b;
        DoubleDouble::new(fused.fma(a, b, -r_hi), r_hi)
    }

    #[tactic(auto, unfolding(crate::specs::DoubleDouble::add))]
    pub fn add(a: DoubleDouble, b: DoubleDouble) -> DoubleDouble
        ensures { result ≡ Pairs.add a b }
    {
        let s = a.hi + b.hi;
        let d = s - a.hi;
        let l = ((b.hi - d) + (a.hi + (d - s))) + (a.lo + b.lo);
        DoubleDouble::new(l, s)
    }

    #[tactic(auto, unfolding(crate::specs::DoubleDouble::add_f64))]
    pub fn add_f64(a: DoubleDouble, b: f64) -> DoubleDouble
        ensures { result ≡ Pairs.add_f64 a b }
    {
        let t = DoubleDouble::from_exact_add(a.hi, b);
        DoubleDouble::new(a.lo + t.lo, t.hi)
    }

    #[tactic(auto, unfolding(crate::specs::DoubleDouble::quick_mult))]
    pub fn quick_mult(a: DoubleDouble, b: DoubleDouble) -> DoubleDouble
        ensures { result ≡ Pairs.quick_mult a b }
    {
        let c = DoubleDouble::from_exact_mult(a.hi, b.hi);
        let tl1 = a.hi * b.lo;
        let tl2 = a.lo * b.hi;
        let cl2 = tl1 + tl2;
        DoubleDouble::new(c.lo + cl2, c.hi)
    }

    #[tactic(auto, unfolding(crate::specs::DoubleDouble::quick_mult_fma))]
    pub fn quick_mult_fma<F: Fma>(a: DoubleDouble, b: DoubleDouble, fused: &F) -> DoubleDouble
        ensures { result ≡ Pairs.quick_mult_fma (F.Fma.fused fused.now) a b }
    {
        let r = DoubleDouble::from_exact_mult_fma(a.hi, b.hi, fused);
        let t1 = fused.fma(a.hi, b.lo, r.lo);
        DoubleDouble::new(fused.fma(a.lo, b.hi, t1), r.hi)
    }

    #[tactic(auto, unfolding(crate::specs::DoubleDouble::quick_mult_f64))]
    pub fn quick_mult_f64(a: DoubleDouble, b: f64) -> DoubleDouble
        ensures { result ≡ Pairs.quick_mult_f64 a b }
    {
        let c = DoubleDouble::from_exact_mult(a.hi, b);
        let cl2 = a.lo * b;
        DoubleDouble::new(c.lo + cl2, c.hi)
    }

    #[tactic(auto, unfolding(crate::specs::DoubleDouble::quick_mult_f64_fma))]
    pub fn quick_mult_f64_fma<F: Fma>(a: DoubleDouble, b: f64, fused: &F) -> DoubleDouble
        ensures { result ≡ Pairs.quick_mult_f64_fma (F.Fma.fused fused.now) a b }
    {
        let h = b * a.hi;
        let l = fused.fma(b, a.lo, fused.fma(b, a.hi, -h));
        DoubleDouble::new(l, h)
    }

    // A product that is given as a pair plus c, meant for |c.hi| above |product.hi|.
    #[tactic(auto, unfolding(crate::specs::DoubleDouble::plus_product))]
    pub fn plus_product(product: DoubleDouble, c: DoubleDouble) -> DoubleDouble
        ensures { result ≡ Pairs.plus_product product c }
    {
        let p = DoubleDouble::add_f64(c, product.hi);
        DoubleDouble::new(product.lo + p.lo, p.hi)
    }

    // a b + c, meant for |c.hi| above |a.hi b.hi|. The power has its product already, and calls
    // `plus_product`; this is the reference's function, for other callers.
    pub fn quick_mul_add<P: PairProduct>(
        a: DoubleDouble,
        b: DoubleDouble,
        c: DoubleDouble,
        by: &P,
    ) -> DoubleDouble
        ensures { result ≡ Pairs.plus_product (P.product by.now a b) c }
    {
        DoubleDouble::plus_product(by.quick_mult(a, b), c)
    }
}
