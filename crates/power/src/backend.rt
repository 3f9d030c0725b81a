// The interface of an arithmetic that the power runs on.
ghost use Rattle.std.specs.Prelude.{◌≡◌};
ghost use Rattle.power.specs.Backend.{Arithmetic};
ghost use Rattle.power.specs.Rules as Rules;

use pairs::double_double::DoubleDouble;

// `meaning` is what the functions compute; its author shows `rules`. No function has a body here: it
// could not be proved of every meaning.
pub trait PowfBackend {
    ghost meaning: { Self → Arithmetic };

    // x y + z, exact where x y and x y + z are both values of f64.
    fn fma(&self, x: f64, y: f64, z: f64) -> f64
        ensures { result ≡ (meaning self.now).scalar.fma x y z };

    // Whether y is whole.
    fn integerf(&self, y: f32) -> bool
        ensures { result ≡ (meaning self.now).scalar.integerf y };

    // Whether y is odd.
    fn odd_integerf(&self, y: f32) -> bool
        ensures { result ≡ (meaning self.now).scalar.odd_integerf y };

    // The nearest whole number, halves away from zero.
    fn round(&self, x: f64) -> f64
        ensures { result ≡ (meaning self.now).scalar.round x };

    fn quick_mult(&self, x: DoubleDouble, y: DoubleDouble) -> DoubleDouble
        ensures { result ≡ (meaning self.now).products.quick_mult x y };

    fn quick_mult_f64(&self, x: DoubleDouble, y: f64) -> DoubleDouble
        ensures { result ≡ (meaning self.now).products.quick_mult_f64 x y };

    // How many patterns the fast path's result may be off, from 1 to 128.
    fn err(&self) -> u64
        ensures { result ≡ (meaning self.now).scalar.err };

    ghost rules: { (b : Self) → Rules.Rules (meaning b) };
}
