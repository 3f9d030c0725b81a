// A program that answers its input.
ghost use Rattle.std.specs.Prelude.{OnOk};
ghost use Rattle.text.specs.Filter as Spec;

use crate::input::MAX_INPUT;
use std::alloc::{AllocError, Global};
use std::io;
use std::io::{Read, Write};

// Writes to `output` what `answers` gives for the bytes of `input`.
pub fn filter<R: Read + Drop, W: Write, F: FnOnce(Global, &[u8]) -> Result<Vec<u8>, AllocError>>(
    heap: Global,
    input: R,
    output: &mut W,
    answers: F,
) -> io::Result<()>
    requires { F.IsAlwaysCallable answers }
    ensures { OnOk result (Spec.Answered (F.post answers heap) (R.remaining input) (W.contents output.old) (W.contents output.new)) }
{
    // A byte past the bound tells that there is more, and no other is read.
    let most = MAX_INPUT as u64 + 1;
    let mut text = Vec::new(heap);
    input.take(most).read_to_end(&mut text)?;
    let answer = answers(heap, text.as_slice())?;
    output.write_all(answer.as_slice())
}
