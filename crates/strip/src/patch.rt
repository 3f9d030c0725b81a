// A cell of a strip: empty, or a reading under a curve with the value that it shows.
ghost use Rattle.std.specs.Prelude.{◌≡◌};
ghost use Rattle.power.specs.Powf.{power};
ghost use Rattle.strip.specs.Patch as Spec;

use crate::curve::Numbered;
use power::backend::PowfBackend;

// The flag stands beside the values: a cell is a flat record that callers lend in place, and an empty one
// holds +0, curve 0 and +0, of which an Option would say nothing. `view` gives the Option.
#[derive(Clone, Copy)]
pub struct Patch {
    pub filled: bool,
    pub reading: f32,
    pub curve: u32,
    pub shown: f32,
}

// What is read of a filled patch.
#[derive(Clone, Copy)]
pub struct View {
    pub reading: f32,
    pub curve: u32,
    pub shown: f32,
}

impl Patch {
    pub fn empty() -> Patch
        ensures { result ≡ Spec.empty }
    {
        Patch {
            filled: false,
            reading: 0.0,
            curve: 0,
            shown: 0.0,
        }
    }

    // A reading under a curve.
    pub(crate) fn laid<B: PowfBackend>(reading: f32, under: Numbered, backend: &B) -> Patch
        ensures { result ≡ Spec.laid (power (B.PowfBackend.meaning backend.now)) under.number under.curve reading }
    {
        Patch {
            filled: true,
            reading,
            curve: under.number,
            shown: under.curve.shown(reading, backend),
        }
    }

    // Whether it is filled, under this curve.
    pub(crate) fn is_under(&self, curve: u32) -> bool
        ensures { result ≡ Spec.under curve self.now }
    {
        self.filled && self.curve == curve
    }

    // What is read of it, if it is filled.
    pub(crate) fn view(&self) -> Option<View>
        ensures { result ≡ Spec.viewed self.now }
    {
        self.filled.then_some(View {
            reading: self.reading,
            curve: self.curve,
            shown: self.shown,
        })
    }
}
