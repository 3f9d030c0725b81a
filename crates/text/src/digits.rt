// Numbers in digits of a base.
ghost use Rattle.std.specs.Prelude.{◌≡◌, ◌^◌, ◌≤◌, length};
ghost use Rattle.text.specs.Digits as Spec;

// The value of a digit, which is in lower case.
fn digit(base: u32, b: u8) -> Option<u32>
    requires from { 2 ≤ base }
    requires to { base ≤ 16 }
    ensures { result ≡ Spec.digit base b }
{
    // Not `char::to_digit`, which takes upper case too: with a test for that, reading took half as long again.
    let value = match b {
        b'0'..=b'9' => u32::from(b - b'0'),
        b'a'..=b'f' => u32::from(b - b'a') + 10,
        _ => return None,
    };
    (value < base).then_some(value)
}

// The number that digits write.
#[tactic(auto, using(crate::proofs::digits::Numerals::room), unfolding(crate::specs::Digits::numeral))]
pub(crate) fn read(base: u32, digits: &[u8]) -> Option<u32>
    requires from { 2 ≤ base }
    requires to { base ≤ 16 }
    requires room { base ^ length digits.now ≤ 2 ^ 32 }
    ensures { result ≡ Spec.numeral base 0 digits.now }
{
    let mut n = 0;
    // Not `try_fold`: its closure would have to show that the sum fits, which the loop's invariant shows.
    for b in digits {
        n = n * base + digit(base, *b)?;
    }
    Some(n)
}
