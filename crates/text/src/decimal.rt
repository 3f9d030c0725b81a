// Numbers in decimal digits.
ghost use Rattle.std.specs.Prelude.{◌≡◌};
ghost use Rattle.text.specs.Decimal as Spec;

use crate::digits::read;

// The number that one to nine digits write.
pub fn read_number(digits: &[u8]) -> Option<u32>
    ensures { result ≡ Spec.number digits.now }
{
    if digits.is_empty() || digits.len() > 9 {
        return None;
    }
    read(10, digits)
}
