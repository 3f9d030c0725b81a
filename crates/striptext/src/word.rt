// What the words of a line give, one after another.
ghost use Rattle.std.specs.Prelude.{◌≡◌, ℕ, List, Some, None, Option, MatchOption};
ghost use Rattle.striptext.specs.Step as Spec;
ghost use Rattle.text.specs.Decimal as Decimal;
ghost use Rattle.text.specs.Float as Float;
ghost use Rattle.text.specs.Pieces.{pieces_left};

use text::decimal::read_number;
use text::float::read_float;
use text::pieces::Pieces;

// A value that a word can give. Words are bytes, so `FromStr` does not fit.
pub(crate) trait Word {
    ghost given: { List ℕ → Option Self };

    fn of_word(word: &[u8]) -> Option<Self>
        ensures { result ≡ given word.now };
}

// In decimal digits.
impl Word for u32 {
    ghost given = { Decimal.number };

    fn of_word(word: &[u8]) -> Option<u32> {
        read_number(word)
    }
}

impl Word for usize {
    ghost given = { Decimal.number };

    fn of_word(word: &[u8]) -> Option<usize> {
        read_number(word).map(|n| n as usize)
    }
}

// As a bit pattern in hexadecimal digits.
impl Word for f32 {
    ghost given = { Float.float_given };

    fn of_word(word: &[u8]) -> Option<f32> {
        read_float(word)
    }
}

// What the next word gives.
pub(crate) fn next<T: Word>(words: &mut Pieces<'_>) -> Option<T>
    ensures { MatchOption result (Spec.first T.given (pieces_left words.old) ≡ None) (λ x. Spec.first T.given (pieces_left words.old) ≡ Some (x, pieces_left words.new)) }
{
    T::of_word(words.next()?)
}
