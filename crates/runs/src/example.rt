// A worked run that the law speaks of.
ghost use Rattle.std.specs.Prelude.{◌≡◌, map, IfOk, vec_items};
ghost use Rattle.runs.specs.Example as Example;
ghost use Rattle.runs.specs.Run.{ProperRun, start};

use crate::run::{Handed, Step};
use power::backend::PowfBackend;
use std::alloc::{AllocError, Global};
use strip::call::Call;
use strip::patch::Patch;

// Four cells from elsewhere, and three empty ones.
pub fn worked_lists(heap: Global) -> Result<Vec<Vec<Patch>>, AllocError>
    ensures { IfOk result (λ v. map vec_items v.items ≡ Example.lists) }
{
    let stray = Patch {
        filled: true,
        reading: 1.0,
        curve: 99,
        shown: 2.0,
    };
    let four = vec![in heap; stray; 4]?;
    let three = vec![in heap; Patch::empty(); 3]?;
    Ok(vec![in heap; four, three]?)
}

// Two words for the two cases of `Handed`: one function would spell the case out in each of 18 steps.
fn on_own(call: Call) -> Step
    ensures { result ≡ Example.on_own call }
{
    Step {
        list: Handed::Own,
        call,
    }
}

fn on_list(list: usize, call: Call) -> Step
    ensures { result ≡ Example.on_list list call }
{
    Step {
        list: Handed::Numbered(list),
        call,
    }
}

// Refusals, another list, finish and reopen, a second spread.
fn worked_steps() -> [Step; 18]
    ensures { result ≡ Example.steps }
{
    [
        on_own(Call::SetCurve {
            curve: 0,
            exponent: 3.0,
        }),
        on_list(0, Call::Spread),
        on_own(Call::LayPatch {
            patch: 2,
            reading: 3.0,
            curve: 0,
        }),
        on_own(Call::LayPatch {
            patch: 1,
            reading: -3.0,
            curve: 0,
        }),
        on_own(Call::LayPatch {
            patch: 2,
            reading: 1.0,
            curve: 0,
        }),
        on_own(Call::LayPatch {
            patch: 0,
            reading: 1.0,
            curve: 5,
        }),
        on_list(1, Call::ReadPatch { patch: 2 }),
        on_own(Call::SetCurve {
            curve: 0,
            exponent: 2.0,
        }),
        on_own(Call::DropCurve { curve: 0 }),
        on_own(Call::Finish),
        on_own(Call::ReadPatch { patch: 1 }),
        on_own(Call::Reopen),
        on_own(Call::ChangeReading {
            patch: 1,
            reading: 3.0,
        }),
        on_own(Call::MovePatch {
            patch: 2,
            curve: 16,
        }),
        on_own(Call::LiftPatch { patch: 2 }),
        on_list(1, Call::Spread),
        on_list(0, Call::ReadPatch { patch: 1 }),
        on_own(Call::ReadPatch { patch: 1 }),
    ]
}

// The worked run, which is proper on any backend.
pub fn worked_run<B: PowfBackend>(backend: &B) -> [Step; 18]
    ensures steps { result ≡ Example.steps }
    ensures proper { ProperRun B.PowfBackend.meaning (start backend.now Example.lists) result }
{
    // Only the clause `proper` speaks of it: the steps are the same on each.
    let _ = backend;
    worked_steps()
}
