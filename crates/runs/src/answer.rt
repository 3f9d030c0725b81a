// What a call of a strip answers, as a value.
ghost use Rattle.std.specs.Prelude.{◌≡◌, MatchResult};
ghost use Rattle.runs.specs.Answer as Spec;
ghost use Rattle.runs.specs.declared.answer.Answer.TheVariants as Answers;

use strip::patch::View;
use strip::refusal::Refusal;

#[derive(Clone, Copy)]
pub enum Answer {
    // The strip's state does not allow the call, which was not made.
    NotAllowed,
    Refused(Refusal),
    // Of cells, or of patches.
    Count(usize),
    // An exponent, a reading or a shown value.
    Value(f32),
    Patch(View),
    // Of a call that answers nothing.
    Done,
}

impl Answer {
    pub(crate) fn is_count(&self) -> bool
        ensures { result ≡ Spec.is_count self.now }
    {
        matches!(self, Answer::Count(_))
    }
}

impl From<usize> for Answer {
    ghost from_gives = { λ count answer. answer ≡ Answers.Count count };

    fn from(count: usize) -> Answer {
        Answer::Count(count)
    }
}

impl From<f32> for Answer {
    ghost from_gives = { λ value answer. answer ≡ Answers.Value value };

    fn from(value: f32) -> Answer {
        Answer::Value(value)
    }
}

impl From<View> for Answer {
    ghost from_gives = { λ view answer. answer ≡ Answers.Patch view };

    fn from(view: View) -> Answer {
        Answer::Patch(view)
    }
}

impl From<Refusal> for Answer {
    ghost from_gives = { λ refusal answer. answer ≡ Answers.Refused refusal };

    fn from(refusal: Refusal) -> Answer {
        Answer::Refused(refusal)
    }
}

impl<T: Into<Answer>> From<Result<T, Refusal>> for Answer {
    ghost from_gives = { λ outcome answer. MatchResult outcome (λ x. T.converts x answer) (λ refusal. answer ≡ Answers.Refused refusal) };

    fn from(outcome: Result<T, Refusal>) -> Answer {
        match outcome {
            Ok(accepted) => accepted.into(),
            Err(refusal) => refusal.into(),
        }
    }
}
