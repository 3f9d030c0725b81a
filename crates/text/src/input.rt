// How much input is answered.
ghost use Rattle.std.specs.Prelude.{◌≡◌, ◌<◌, ◌≤◌, length, MatchOption};
ghost use Rattle.text.specs.Input as Spec;

// The most bytes of input that are answered.
pub const MAX_INPUT: usize = 65_536;

// What is written for a longer one.
pub const TOO_LONG: &[u8] = b"too long\n";

// The input, if it is not too long.
pub fn bounded(input: &[u8]) -> Option<&[u8]>
    ensures { MatchOption result (Spec.max_input < length input.now) (λ text. (text.now ≡ input.now) × (length input.now ≤ Spec.max_input)) }
{
    (input.len() <= MAX_INPUT).then_some(input)
}
