// A strip, open or finished, and its calls. The cells are the caller's, and are handed to each call.
ghost use Rattle.std.specs.Prelude.{◌≡◌, [], ◌∷◌, length};
ghost use Rattle.strip.specs.Cells as Cells;
ghost use Rattle.strip.specs.Curve as Curving;
ghost use Rattle.strip.specs.Patch as Patches;
ghost use Rattle.strip.specs.Refusal as Table;
ghost use Rattle.strip.specs.Strip as Calls;
ghost use Rattle.strip.specs.declared.call.Call.TheVariants.{Spread, SetCurve, DropCurve, LayPatch, ChangeReading, MovePatch, LiftPatch, ReadPatch};

use crate::cells::{clear, in_use, rework};
use crate::curve::{Curve, Curves, Numbered};
use crate::patch::{Patch, View};
use crate::refusal::Refusal;
use power::backend::PowfBackend;

// The most cells that a strip has.
pub const MAX_CELLS: usize = 4096;

// What a strip holds in either state. The count stands alone, as the cells are lent to each call and not kept.
#[derive(Drop)]
pub struct Strip<B> {
    backend: B,
    curves: Curves,
    count: usize,
}

// A strip that takes every call but `reopen`.
#[derive(Drop)]
pub struct OpenStrip<B> {
    strip: Strip<B>,
}

// A strip that is read or reopened, and takes no other call.
#[derive(Drop)]
pub struct FinishedStrip<B> {
    strip: Strip<B>,
}

// With no value to hand on, `then_some(()).ok_or(..)` would say no more than `if`.
fn check_curve(curve: u32) -> Result<(), Refusal>
    ensures { result ≡ Table.asked (Table.curve_number curve) }
{
    if curve > 15 {
        Err(Refusal::CurveNumber)
    } else {
        Ok(())
    }
}

impl<B: PowfBackend> Strip<B> {
    // An `if` for the reason of `check_curve`: there is no value to hand on.
    fn check_cells(&self, cells: &[Patch]) -> Result<(), Refusal>
        ensures { result ≡ Table.asked (Table.cells (Calls.observed self.now cells.now)) }
    {
        if cells.len() == self.count {
            Ok(())
        } else {
            Err(Refusal::Cells)
        }
    }

    // The cell of a patch, in a list that has to be as long as the strip's own.
    fn cell(&self, cells: &[Patch], patch: usize) -> Result<Patch, Refusal>
        ensures { result ≡ Table.answered (Table.first (Table.cells (Calls.observed self.now cells.now) ∷ Table.patch_number (Calls.observed self.now cells.now) patch ∷ [])) (Cells.at cells.now patch) }
    {
        self.check_cells(cells)?;
        cells.get(patch).copied().ok_or(Refusal::PatchNumber)
    }

    // A curve that has to be set.
    fn curve_set(&self, number: u32) -> Result<Numbered, Refusal>
        ensures { result ≡ Table.answered (Table.first (Table.curve_number number ∷ Table.curve_unset (Calls.observed self.now []) number ∷ [])) (Curving.numbered number (Curving.counted (Calls.curve_of self.now number))) }
    {
        check_curve(number)?;
        let curve = self.curves.get(number).ok_or(Refusal::CurveUnset)?;
        Ok(Numbered { number, curve })
    }

    fn read_patch(&self, cells: &[Patch], patch: usize) -> Result<View, Refusal>
        ensures { result ≡ Table.answered (Calls.refusal (ReadPatch patch) self.now cells.now) (Patches.view (Cells.at cells.now patch)) }
    {
        self.cell(cells, patch)?.view().ok_or(Refusal::PatchEmpty)
    }
}

// Each call says answer, strip and cells in clauses that name the call: a record of the three would say the
// same in more lines.
impl<B: PowfBackend> OpenStrip<B> {
    // A strip with no curve set and no cells.
    pub fn new(backend: B) -> OpenStrip<B>
        ensures { result.strip ≡ Calls.opened backend }
    {
        OpenStrip {
            strip: Strip {
                backend,
                curves: Curves::unset(),
                count: 0,
            },
        }
    }

    // Empties every cell, and makes the list the strip's own; answers the count.
    pub fn spread(&mut self, cells: &mut [Patch]) -> Result<usize, Refusal>
        ensures answer { result ≡ Table.answered (Calls.refusal Spread self.old.strip cells.old) (length cells.old) }
        ensures strip { self.new.strip ≡ Calls.strip_after Spread self.old.strip cells.old }
        ensures cells { cells.new ≡ Calls.cells_after B.PowfBackend.meaning Spread self.old.strip cells.old }
    {
        if cells.is_empty() || cells.len() > MAX_CELLS {
            return Err(Refusal::Spreading);
        }
        clear(cells);
        self.strip.count = cells.len();
        Ok(self.strip.count)
    }

    // Sets a curve's exponent and reworks the filled patches under it; answers how many they are.
    pub fn set_curve(
        &mut self,
        cells: &mut [Patch],
        curve: u32,
        exponent: f32,
    ) -> Result<usize, Refusal>
        ensures answer { result ≡ Table.answered (Calls.refusal (SetCurve curve exponent) self.old.strip cells.old) (Cells.users curve cells.old) }
        ensures strip { self.new.strip ≡ Calls.strip_after (SetCurve curve exponent) self.old.strip cells.old }
        ensures cells { cells.new ≡ Calls.cells_after B.PowfBackend.meaning (SetCurve curve exponent) self.old.strip cells.old }
    {
        self.strip.check_cells(cells)?;
        check_curve(curve)?;
        if exponent.is_nan() {
            return Err(Refusal::Exponent);
        }
        let set = Numbered {
            number: curve,
            curve: Curve { exponent },
        };
        self.strip.curves.put(curve, Some(set.curve));
        Ok(rework(cells, set, &self.strip.backend))
    }

    // Unsets a curve that no filled patch is under; answers its exponent.
    #[tactic(auto, using(crate::proofs::cells::Users::some_counted))]
    pub fn drop_curve(&mut self, cells: &[Patch], curve: u32) -> Result<f32, Refusal>
        ensures answer { result ≡ Table.answered (Calls.refusal (DropCurve curve) self.old.strip cells.now) (Curving.counted (Calls.curve_of self.old.strip curve)).exponent }
        ensures strip { self.new.strip ≡ Calls.strip_after (DropCurve curve) self.old.strip cells.now }
    {
        self.strip.check_cells(cells)?;
        let set = self.strip.curve_set(curve)?;
        if in_use(cells, curve) {
            return Err(Refusal::CurveInUse);
        }
        self.strip.curves.put(curve, None);
        Ok(set.curve.exponent)
    }

    // Fills an empty cell with a reading under a curve; answers what it shows.
    pub fn lay_patch(
        &self,
        cells: &mut [Patch],
        patch: usize,
        reading: f32,
        curve: u32,
    ) -> Result<f32, Refusal>
        ensures answer { result ≡ Table.answered (Calls.refusal (LayPatch patch reading curve) self.now.strip cells.old) (Calls.patch_laid B.PowfBackend.meaning self.now.strip curve reading).shown }
        ensures cells { cells.new ≡ Calls.cells_after B.PowfBackend.meaning (LayPatch patch reading curve) self.now.strip cells.old }
    {
        let cell = self.strip.cell(cells, patch)?;
        let set = self.strip.curve_set(curve)?;
        if cell.filled {
            return Err(Refusal::PatchFilled);
        }
        let laid = Patch::laid(reading, set, &self.strip.backend);
        cells[patch] = laid;
        Ok(laid.shown)
    }

    // Puts another reading into a filled cell; answers what it shows.
    pub fn change_reading(
        &self,
        cells: &mut [Patch],
        patch: usize,
        reading: f32,
    ) -> Result<f32, Refusal>
        ensures answer { result ≡ Table.answered (Calls.refusal (ChangeReading patch reading) self.now.strip cells.old) (Calls.patch_laid B.PowfBackend.meaning self.now.strip (Cells.at cells.old patch).curve reading).shown }
        ensures cells { cells.new ≡ Calls.cells_after B.PowfBackend.meaning (ChangeReading patch reading) self.now.strip cells.old }
    {
        let View { curve, .. } = self.strip.read_patch(cells, patch)?;
        let under = self.strip.curves.counted(curve);
        let changed = Patch::laid(reading, under, &self.strip.backend);
        cells[patch] = changed;
        Ok(changed.shown)
    }

    // Puts a filled cell under another curve; answers what it shows.
    pub fn move_patch(&self, cells: &mut [Patch], patch: usize, curve: u32) -> Result<f32, Refusal>
        ensures answer { result ≡ Table.answered (Calls.refusal (MovePatch patch curve) self.now.strip cells.old) (Calls.patch_laid B.PowfBackend.meaning self.now.strip curve (Cells.at cells.old patch).reading).shown }
        ensures cells { cells.new ≡ Calls.cells_after B.PowfBackend.meaning (MovePatch patch curve) self.now.strip cells.old }
    {
        let cell = self.strip.cell(cells, patch)?;
        let set = self.strip.curve_set(curve)?;
        let View { reading, .. } = cell.view().ok_or(Refusal::PatchEmpty)?;
        let moved = Patch::laid(reading, set, &self.strip.backend);
        cells[patch] = moved;
        Ok(moved.shown)
    }

    // Empties a filled cell; answers its reading.
    pub fn lift_patch(&self, cells: &mut [Patch], patch: usize) -> Result<f32, Refusal>
        ensures answer { result ≡ Table.answered (Calls.refusal (LiftPatch patch) self.now.strip cells.old) (Cells.at cells.old patch).reading }
        ensures cells { cells.new ≡ Calls.cells_after B.PowfBackend.meaning (LiftPatch patch) self.now.strip cells.old }
    {
        let View { reading, .. } = self.strip.read_patch(cells, patch)?;
        cells[patch] = Patch::empty();
        Ok(reading)
    }

    // Answers reading, curve and shown value of a filled cell. It stands in both states: a state parameter
    // would stand in every contract.
    pub fn read_patch(&self, cells: &[Patch], patch: usize) -> Result<View, Refusal>
        ensures { result ≡ Table.answered (Calls.refusal (ReadPatch patch) self.now.strip cells.now) (Patches.view (Cells.at cells.now patch)) }
    {
        self.strip.read_patch(cells, patch)
    }

    // The finished strip with the same curves and count.
    pub fn finish(self) -> FinishedStrip<B>
        ensures { result.strip ≡ self.strip }
    {
        FinishedStrip { strip: self.strip }
    }
}

impl<B: PowfBackend> FinishedStrip<B> {
    // Answers reading, curve and shown value of a filled cell. It stands in both states: a state parameter
    // would stand in every contract.
    pub fn read_patch(&self, cells: &[Patch], patch: usize) -> Result<View, Refusal>
        ensures { result ≡ Table.answered (Calls.refusal (ReadPatch patch) self.now.strip cells.now) (Patches.view (Cells.at cells.now patch)) }
    {
        self.strip.read_patch(cells, patch)
    }

    // The open strip with the same curves and count.
    pub fn reopen(self) -> OpenStrip<B>
        ensures { result.strip ≡ self.strip }
    {
        OpenStrip { strip: self.strip }
    }
}
