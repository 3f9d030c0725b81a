// A list of cells, as one call works on it.
ghost use Rattle.std.specs.Prelude.{◌≡◌};
ghost use Rattle.std.specs.List.{list_any};
ghost use Rattle.power.specs.Powf.{power};
ghost use Rattle.strip.specs.Cells as Cells;
ghost use Rattle.strip.specs.Patch.{under};

use crate::curve::Numbered;
use crate::patch::Patch;
use power::backend::PowfBackend;

// Empties every cell.
pub(crate) fn clear(cells: &mut [Patch])
    ensures { cells.new ≡ Cells.cleared cells.old }
{
    cells.fill(Patch::empty());
}

// Whether a filled patch is under a curve.
pub(crate) fn in_use(cells: &[Patch], curve: u32) -> bool
    ensures { result ≡ list_any (under curve) cells.now }
{
    cells.iter().any(|cell| cell.is_under(curve))
}

// Reworks the filled patches under a curve that was set, and answers how many they are.
pub(crate) fn rework<B: PowfBackend>(cells: &mut [Patch], set: Numbered, backend: &B) -> usize
    ensures cells { cells.new ≡ Cells.all_reworked (power (B.PowfBackend.meaning backend.now)) set.number set.curve cells.old }
    ensures answer { result ≡ Cells.users set.number cells.old }
{
    // One pass, which writes to the patches under the curve alone: a count beside it, and a write to each
    // cell, took five times as long where few are. After an adapter of `iter_mut` nothing is known of the cells.
    let Numbered { number, curve } = set;
    let mut count = 0;
    for cell in cells.iter_mut() {
        if cell.is_under(number) {
            cell.shown = curve.shown(cell.reading, backend);
            count += 1;
        }
    }
    count
}
