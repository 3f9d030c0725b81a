// Answers as text.
ghost use Rattle.std.specs.Prelude.{Some};
ghost use Rattle.striptext.specs.Written as Spec;

use runs::answer::Answer;
use std::fmt;
use text::float::Bits;

// An answer, as its line has it: floats by their bits, and no word for what a number counts.
#[derive(Clone, Copy)]
pub(crate) struct Written(pub(crate) Answer);

impl fmt::Display for Written {
    ghost output = { λ answer. Some (Spec.answer answer.0) };

    fn fmt<W: fmt::Write>(&self, f: &mut fmt::Formatter<W>) -> fmt::Result {
        match self.0 {
            Answer::NotAllowed => write!(f, "not allowed"),
            Answer::Refused(refusal) => write!(f, "{refusal}"),
            Answer::Count(n) => write!(f, "{n}"),
            Answer::Value(x) => write!(f, "{}", Bits(x)),
            Answer::Patch(view) => write!(
                f,
                "{} {} {}",
                Bits(view.reading),
                view.curve,
                Bits(view.shown)
            ),
            Answer::Done => write!(f, "done"),
        }
    }
}
