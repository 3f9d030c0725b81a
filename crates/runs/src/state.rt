// A strip in either state, and a call on it as a value.
ghost use Rattle.std.specs.Prelude.{◌≡◌, true};
ghost use Rattle.runs.specs.State as State;

use crate::answer::Answer;
use power::backend::PowfBackend;
use strip::call::Call;
use strip::patch::Patch;
use strip::strip::{FinishedStrip, OpenStrip};

// A strip in either state.
#[derive(Drop)]
pub enum AnyStrip<B> {
    Open(OpenStrip<B>),
    Finished(FinishedStrip<B>),
}

// What a call leaves of the strip, and its answer; `Stepped` says the same of a step. One type over both
// would name neither.
#[derive(Drop)]
pub struct Called<B> {
    pub strip: AnyStrip<B>,
    pub answer: Answer,
}

impl<B: PowfBackend> AnyStrip<B> {
    // Makes a call, if the state allows it.
    pub fn call(self, cells: &mut [Patch], call: Call) -> Called<B>
        ensures strip { result.strip ≡ State.strip_after self cells.old call }
        ensures answer { result.answer ≡ State.answer B.PowfBackend.meaning self cells.old call }
        ensures cells { cells.new ≡ State.cells_after B.PowfBackend.meaning self cells.old call }
        ensures singles { State.allows self call ≡ true → State.Singles call }
    {
        match self {
            AnyStrip::Open(strip) => call_open(strip, cells, call),
            AnyStrip::Finished(strip) => call_finished(strip, cells, call),
        }
    }
}

// A match on the call: calls are values, of which a run is a list.
fn call_open<B: PowfBackend>(whole: OpenStrip<B>, cells: &mut [Patch], call: Call) -> Called<B>
    ensures strip { result.strip ≡ State.strip_after (AnyStrip.Open whole) cells.old call }
    ensures answer { result.answer ≡ State.answer B.PowfBackend.meaning (AnyStrip.Open whole) cells.old call }
    ensures cells { cells.new ≡ State.cells_after B.PowfBackend.meaning (AnyStrip.Open whole) cells.old call }
    ensures singles { State.Singles call }
{
    let mut strip = whole;
    let answer: Answer = match call {
        Call::Spread => strip.spread(cells).into(),
        Call::SetCurve { curve, exponent } => strip.set_curve(cells, curve, exponent).into(),
        Call::DropCurve { curve } => strip.drop_curve(cells, curve).into(),
        Call::LayPatch {
            patch,
            reading,
            curve,
        } => strip.lay_patch(cells, patch, reading, curve).into(),
        Call::ChangeReading { patch, reading } => strip
            .change_reading(cells, patch, reading)
            .into(),
        Call::MovePatch { patch, curve } => strip.move_patch(cells, patch, curve).into(),
        Call::LiftPatch { patch } => strip.lift_patch(cells, patch).into(),
        Call::ReadPatch { patch } => strip.read_patch(cells, patch).into(),
        Call::Finish => {
            return Called {
                strip: AnyStrip::Finished(strip.finish()),
                answer: Answer::Done,
            };
        }
        Call::Reopen => Answer::NotAllowed,
    };
    Called {
        strip: AnyStrip::Open(strip),
        answer,
    }
}

// A match on the call, as in `call_open`: calls are values.
fn call_finished<B: PowfBackend>(strip: FinishedStrip<B>, cells: &[Patch], call: Call) -> Called<B>
    ensures strip { result.strip ≡ State.strip_after (AnyStrip.Finished strip) cells.now call }
    ensures answer { result.answer ≡ State.answer B.PowfBackend.meaning (AnyStrip.Finished strip) cells.now call }
    ensures singles { State.allowed_finished call ≡ true → State.Singles call }
{
    let answer: Answer = match call {
        Call::ReadPatch { patch } => strip.read_patch(cells, patch).into(),
        Call::Reopen => {
            return Called {
                strip: AnyStrip::Open(strip.reopen()),
                answer: Answer::Done,
            };
        }
        _ => Answer::NotAllowed,
    };
    Called {
        strip: AnyStrip::Finished(strip),
        answer,
    }
}
