// Floats as their bit patterns.
ghost use Rattle.std.specs.Prelude.{◌≡◌, Some};
ghost use Rattle.text.specs.Float as Spec;

use crate::hex::{Pattern, read_pattern};
use std::fmt;
use std::num::{f32_from_bits_with_nan, f32_to_bits_with_nan};

// A float, written as its bit pattern.
#[derive(Clone, Copy)]
pub struct Bits(pub f32);

impl fmt::Display for Bits {
    ghost output = { λ x. Some (Spec.float x.0) };

    fn fmt<W: fmt::Write>(&self, f: &mut fmt::Formatter<W>) -> fmt::Result {
        write!(f, "{}", Pattern(f32_to_bits_with_nan(self.0)))
    }
}

// The float whose bit pattern eight digits write.
pub fn read_float(digits: &[u8]) -> Option<f32>
    ensures { result ≡ Spec.float_given digits.now }
{
    let bits = read_pattern(digits)?;
    Some(f32_from_bits_with_nan(bits))
}
