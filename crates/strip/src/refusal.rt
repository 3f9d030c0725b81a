// Why a call is refused.
ghost use Rattle.std.specs.Prelude.{◌≡◌, ◌++◌, Some, codes};
ghost use Rattle.std.specs.Fmt.{decimal};
ghost use Rattle.strip.specs.Refusal as Table;

use std::error::Error;
use std::fmt;

// Each with its number, which is its place in the table.
#[derive(Clone, Copy, Debug, PartialEq, Eq)]
pub enum Refusal {
    Spreading = 1,
    Cells = 2,
    PatchNumber = 3,
    CurveNumber = 4,
    Exponent = 5,
    CurveUnset = 6,
    PatchFilled = 7,
    PatchEmpty = 8,
    CurveInUse = 9,
}

impl Refusal {
    pub fn number(self) -> u32
        ensures { result ≡ Table.number self }
    {
        self as u32
    }
}

impl fmt::Display for Refusal {
    ghost output = { λ refusal. Some (codes "refused " ++ decimal (Table.number refusal)) };

    fn fmt<W: fmt::Write>(&self, f: &mut fmt::Formatter<W>) -> fmt::Result {
        let number = self.number();
        write!(f, "refused {number}")
    }
}

impl Error for Refusal {}
