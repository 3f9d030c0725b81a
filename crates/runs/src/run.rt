// Calls made on one strip, one after another, on several lists of cells.
ghost use Rattle.std.specs.Prelude.{◌≡◌, true, [], map, IfOk, vec_items, OnErr};
ghost use Rattle.runs.specs.Law.{Law};
ghost use Rattle.runs.specs.Run as Run;
ghost use Rattle.runs.specs.Run.{ProperRun};
ghost use Rattle.runs.specs.State as State;

use crate::answer::Answer;
use crate::state::{AnyStrip, Called};
use power::backend::PowfBackend;
use std::alloc::{AllocError, Global};
use strip::call::Call;
use strip::patch::Patch;
use strip::strip::OpenStrip;

// Which list of cells a call is handed: by name in both cases, where an `Option` would not say whose `None` is.
#[derive(Clone, Copy)]
pub enum Handed {
    // The one of the last accepted spread.
    Own,
    // One of the lists that there are; past the last stands an empty one.
    Numbered(usize),
}

#[derive(Clone, Copy)]
pub struct Step {
    pub list: Handed,
    pub call: Call,
}

// A strip, and the number of the list that is its own: a number, since a strip that held a borrow of its
// list could not be handed another.
#[derive(Drop)]
pub struct Session<B> {
    pub strip: AnyStrip<B>,
    pub own: usize,
}

// What a step leaves, and its answer; `Called` says the same of a call. One type over both would name
// neither.
#[derive(Drop)]
pub struct Stepped<B> {
    pub session: Session<B>,
    pub answer: Answer,
}

fn is_spread(call: Call) -> bool
    ensures { result ≡ Run.is_spread call }
{
    matches!(call, Call::Spread)
}

impl<B: PowfBackend> Session<B> {
    // The number of the list that a step names.
    fn number(&self, step: Step) -> usize
        ensures { result ≡ Run.number (Run.world self.now.strip [] self.now.own) step }
    {
        match step.list {
            Handed::Own => self.own,
            Handed::Numbered(n) => n,
        }
    }

    // Makes one call on the list that the step names.
    pub fn step(self, lists: &mut [Vec<Patch>], step: Step) -> Stepped<B>
        ensures world { Run.world result.session.strip (map vec_items lists.new) result.session.own ≡ Run.stepped B.PowfBackend.meaning (Run.world self.strip (map vec_items lists.old) self.own) step }
        ensures answer { result.answer ≡ Run.answer_of B.PowfBackend.meaning (Run.world self.strip (map vec_items lists.old) self.own) step }
        ensures singles { State.allows self.strip step.call ≡ true → State.Singles step.call }
    {
        let number = self.number(step);
        let Session { strip, own } = self;
        // By index: of what a borrow from `get_mut` leaves in a list, nothing is known.
        let Called { strip, answer } = if number < lists.len() {
            strip.call(&mut lists[number], step.call)
        } else {
            strip.call(&mut [], step.call)
        };
        let own = if answer.is_count() && is_spread(step.call) {
            number
        } else {
            own
        };
        Stepped {
            session: Session { strip, own },
            answer,
        }
    }
}

// Where a run ends, the number of the strip's own list there, and what each call answered: the parts of the
// last session, since the law speaks of each.
#[derive(Drop)]
pub struct Replayed<B> {
    pub strip: AnyStrip<B>,
    pub own: usize,
    pub answers: Vec<Answer>,
}

// Opens a strip and makes the calls; where there is no memory for the answers, none is made.
pub fn replay<B: PowfBackend + Drop>(
    heap: Global,
    backend: B,
    lists: &mut [Vec<Patch>],
    steps: &[Step],
) -> Result<Replayed<B>, AllocError>
    ensures ends { IfOk result (λ done. Run.world done.strip (map vec_items lists.new) done.own ≡ Run.run B.PowfBackend.meaning (Run.start backend (map vec_items lists.old)) steps.now) }
    ensures answers { IfOk result (λ done. done.answers.items ≡ Run.answers B.PowfBackend.meaning (Run.start backend (map vec_items lists.old)) steps.now) }
    ensures law { IfOk result (λ done. (ProperRun B.PowfBackend.meaning (Run.start backend (map vec_items lists.old)) steps.now → Law B.PowfBackend.meaning backend (map vec_items lists.old) steps.now (Run.world done.strip (map vec_items lists.new) done.own) done.answers.items)) }
    ensures unmade { OnErr result (lists.new ≡ lists.old) }
{
    let mut answers = Vec::with_capacity(heap, steps.len())?;
    let mut session = Session {
        strip: AnyStrip::Open(OpenStrip::new(backend)),
        // Past the last list, as a step may name it: the empty one, which is the own list before the first
        // spread. So no Option is needed.
        own: lists.len(),
    };
    for step in steps {
        let done = session.step(lists, *step);
        session = done.session;
        answers.push(done.answer).unwrap();
    }
    Ok(Replayed {
        strip: session.strip,
        own: session.own,
        answers,
    })
}
