// Numbers that follow from a seed.
use std::num::f64_from_bits_with_nan;
use std::ops::Range;

const SIGN: u64 = 0x8000_0000_0000_0000;

// A xorshift generator.
#[derive(Clone, Copy)]
pub(crate) struct Seed {
    pub(crate) state: u64,
}

impl Seed {
    fn next(&mut self) -> u64 {
        let mut x = self.state;
        x ^= x << 13;
        x ^= x >> 7;
        x ^= x << 17;
        self.state = x;
        x.wrapping_mul(0x2545_f491_4f6c_dd1d)
    }

    // One of a range, nearly evenly; its start where it is empty.
    pub(crate) fn within(&mut self, range: Range<u64>) -> u64 {
        let r = self.next() >> 11;
        let Range { start, end } = range;
        if start < end {
            start + r % (end - start)
        } else {
            start
        }
    }

    // A fraction of 52 bits: random, or with few bits at either end, or next to a power of two.
    fn fraction(&mut self) -> u64 {
        let r = self.next() >> 12;
        let shapes = [
            0,
            r & 0xf_ffff_fc00_0000,
            r & 0x3ff,
            0xf_ffff_ffff_ffff - (r & 7),
        ];
        let drawn = self.within(0..6) as usize;
        shapes.get(drawn).copied().unwrap_or(r)
    }

    // A number whose exponent field is one of a range.
    pub(crate) fn number(&mut self, fields: Range<u64>) -> f64 {
        let sign = self.next() & SIGN;
        let field = self.within(fields) & 0x7ff;
        f64_from_bits_with_nan(sign | (field << 52) | self.fraction())
    }

    // x, or a zero of either sign.
    pub(crate) fn or_zero(&mut self, x: f64) -> f64 {
        let zero = f64_from_bits_with_nan(self.next() & SIGN);
        self.either(x, zero)
    }

    pub(crate) fn either(&mut self, x: f64, y: f64) -> f64 {
        if self.next() >> 63 == 0 { x } else { y }
    }
}
