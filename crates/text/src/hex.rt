// Bit patterns in lower-case hexadecimal digits.
ghost use Rattle.std.specs.Prelude.{◌≡◌, ◌%◌, Some};
ghost use Rattle.std.specs.Str.{IsUtf8};
ghost use Rattle.text.specs.Hex as Spec;

use crate::digits::read;
use std::fmt;

// The character of the digit that the last four bits of n are.
fn hex_char(n: u32) -> u8
    ensures { result ≡ Spec.hexadecimal (n % 16) }
{
    let digit = (n % 16) as u8;
    if digit < 10 {
        b'0' + digit
    } else {
        b'a' + (digit - 10)
    }
}

// The eight digits of a pattern, which are ASCII and so are text.
fn hex8(bits: u32) -> [u8; 8]
    ensures digits { result ≡ Spec.hex8 bits }
    ensures text { IsUtf8 result }
{
    [
        hex_char(bits >> 28),
        hex_char(bits >> 24),
        hex_char(bits >> 20),
        hex_char(bits >> 16),
        hex_char(bits >> 12),
        hex_char(bits >> 8),
        hex_char(bits >> 4),
        hex_char(bits),
    ]
}

// A bit pattern, written as its eight digits.
#[derive(Clone, Copy)]
pub struct Pattern(pub u32);

impl fmt::Display for Pattern {
    ghost output = { λ pattern. Some (Spec.hex8 pattern.0) };

    fn fmt<W: fmt::Write>(&self, f: &mut fmt::Formatter<W>) -> fmt::Result {
        let digits = hex8(self.0);
        // Not `{:08x}`, with which this took 1.6 times as long, nor by a test of the bytes, which `hex8` shows to be text.
        f.write_str(unsafe { str::from_utf8_unchecked(&digits) })
    }
}

// The bit pattern that eight digits write.
pub fn read_pattern(digits: &[u8]) -> Option<u32>
    ensures { result ≡ Spec.pattern digits.now }
{
    if digits.len() != 8 {
        return None;
    }
    read(16, digits)
}
