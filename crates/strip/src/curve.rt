// The sixteen curves of a strip.
ghost use Rattle.std.specs.Prelude.{◌≡◌, ◌<◌};
ghost use Rattle.strip.specs.Curve as Spec;
ghost use Rattle.power.specs.Powf.{power};

use power::backend::PowfBackend;
use power::powf::f_powf;

// A curve that is set.
#[derive(Clone, Copy)]
pub struct Curve {
    pub exponent: f32,
}

// A curve with the number that patches name it by.
#[derive(Clone, Copy)]
pub(crate) struct Numbered {
    pub(crate) number: u32,
    pub(crate) curve: Curve,
}

// The curves by number, each unset or set.
#[derive(Drop)]
pub struct Curves {
    table: [Option<Curve>; 16],
}

impl Curve {
    // What a reading shows under it.
    pub(crate) fn shown<B: PowfBackend>(&self, reading: f32, backend: &B) -> f32
        ensures { result ≡ Spec.shown (power (B.PowfBackend.meaning backend.now)) self.now reading }
    {
        f_powf(reading, self.exponent, backend)
    }
}

impl Curves {
    pub(crate) fn unset() -> Curves
        ensures { result ≡ Spec.unset }
    {
        Curves { table: [None; 16] }
    }

    // The curve of a number, if it is set; none is above 15.
    pub(crate) fn get(&self, curve: u32) -> Option<Curve>
        ensures { result ≡ Spec.in_table self.now.table curve }
    {
        self.table.get(curve as usize).copied().flatten()
    }

    // The curve of a number, and the one of exponent 0 where it is unset or above 15.
    pub(crate) fn counted(&self, number: u32) -> Numbered
        ensures { result ≡ Spec.numbered number (Spec.counted (Spec.in_table self.now.table number)) }
    {
        Numbered {
            number,
            curve: self.get(number).unwrap_or(Curve { exponent: 0.0 }),
        }
    }

    pub(crate) fn put(&mut self, curve: u32, to: Option<Curve>)
        requires { curve < 16 }
        ensures { self.new ≡ Spec.with_curve self.old curve to }
    {
        self.table[curve as usize] = to;
    }
}
