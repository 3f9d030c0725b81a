// A line as a call and the list of cells that it is handed.
ghost use Rattle.std.specs.Prelude.{◌≡◌};
ghost use Rattle.striptext.specs.Step as Spec;
ghost use Rattle.text.specs.Pieces.{pieces_left};

use crate::name::Name;
use crate::word::next;
use runs::run::{Handed, Step};
use strip::call::Call;
use strip::strip::MAX_CELLS;
use text::pieces::{Pieces, words};

// The most cells of a list that is handed in: one more than a strip can have.
const MOST_CELLS: usize = MAX_CELLS + 1;

// The list of so many cells; one with more than `MOST_CELLS` has that many.
fn list_of(cells: usize) -> Handed
    ensures { result ≡ Spec.list_of cells }
{
    Handed::Numbered(cells.min(MOST_CELLS))
}

// What was read, if no more words follow.
fn alone<T: Copy>(read: T, words: &mut Pieces<'_>) -> Option<T>
    ensures { result ≡ Spec.alone (pieces_left words.old) read }
{
    words.next().is_none().then_some(read)
}

// Which list the end of a line names: `with` and a number of cells, or nothing, for the strip's own.
fn handed(words: &mut Pieces<'_>) -> Option<Handed>
    ensures { result ≡ Spec.handed (pieces_left words.old) }
{
    match words.next() {
        None => Some(Handed::Own),
        Some(b"with") => alone(list_of(next(words)?), words),
        Some(_) => None,
    }
}

// A call on the list that the end of its line names.
fn on_list(call: Call, words: &mut Pieces<'_>) -> Option<Step>
    ensures { result ≡ Spec.on_list (pieces_left words.old) call }
{
    Some(Step {
        list: handed(words)?,
        call,
    })
}

// A call that takes no words, on this list.
fn only(list: Handed, call: Call, words: &mut Pieces<'_>) -> Option<Step>
    ensures { result ≡ Spec.alone (pieces_left words.old) (record { list = list; call = call }) }
{
    alone(Step { list, call }, words)
}

// The call of this name, with the words that it takes. The name stands between the bytes and the call, since
// the definition of a line speaks of each apart; the match is the one place that says what a call takes.
fn by_name(name: Name, words: &mut Pieces<'_>) -> Option<Step>
    ensures { result ≡ Spec.by_name name (pieces_left words.old) }
{
    let call = match name {
        Name::Spread => return only(list_of(next(words)?), Call::Spread, words),
        Name::Finish => return only(Handed::Own, Call::Finish, words),
        Name::Reopen => return only(Handed::Own, Call::Reopen, words),
        Name::SetCurve => Call::SetCurve {
            curve: next(words)?,
            exponent: next(words)?,
        },
        Name::DropCurve => Call::DropCurve {
            curve: next(words)?,
        },
        Name::LayPatch => Call::LayPatch {
            patch: next(words)?,
            reading: next(words)?,
            curve: next(words)?,
        },
        Name::ChangeReading => Call::ChangeReading {
            patch: next(words)?,
            reading: next(words)?,
        },
        Name::MovePatch => Call::MovePatch {
            patch: next(words)?,
            curve: next(words)?,
        },
        Name::LiftPatch => Call::LiftPatch {
            patch: next(words)?,
        },
        Name::ReadPatch => Call::ReadPatch {
            patch: next(words)?,
        },
    };
    on_list(call, words)
}

// The call of a line, if it is one.
#[tactic(auto, unfolding(crate::specs::Step::step))]
pub(crate) fn read_step(line: &[u8]) -> Option<Step>
    ensures { result ≡ Spec.step line.now }
{
    let mut words = words(line);
    by_name(next(&mut words)?, &mut words)
}
