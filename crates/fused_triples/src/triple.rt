// Three numbers, and the two sums that are compared.
use pairs::fused::fused_sum;
use std::fmt;
use std::num::f64_to_bits_with_nan;

#[derive(Clone, Copy)]
pub(crate) struct Triple {
    pub(crate) a: f64,
    pub(crate) b: f64,
    pub(crate) c: f64,
}

impl Triple {
    pub(crate) fn fused_sum(self) -> f64 {
        fused_sum(self.a, self.b, self.c)
    }

    pub(crate) fn mul_add(self) -> f64 {
        self.a.mul_add(self.b, self.c)
    }
}

// Its bit patterns.
impl fmt::Display for Triple {
    fn fmt<W: fmt::Write>(&self, f: &mut fmt::Formatter<W>) -> fmt::Result {
        let a = f64_to_bits_with_nan(self.a);
        let b = f64_to_bits_with_nan(self.b);
        let c = f64_to_bits_with_nan(self.c);
        write!(f, "{a:016x} {b:016x} {c:016x}")
    }
}
