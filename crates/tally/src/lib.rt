// How many things a test program compared, and at how many it found a difference.
#![tactic(auto)]

ghost use Rattle.std.specs.Prelude.{◌≡◌, ◌+◌, ◌-◌, ◌^◌, ◌++◌, Some, codes, min, true, false};
ghost use Rattle.std.specs.Fmt.{decimal};

use std::fmt;

#[derive(Clone, Copy)]
pub struct Tally {
    // of what it is
    pub what: &'static str,
    pub compared: u64,
    pub differences: u64,
}

impl Tally {
    pub fn new(what: &'static str) -> Tally
        ensures what { result.what.now ≡ what.now }
        ensures compared { result.compared ≡ 0 }
        ensures differences { result.differences ≡ 0 }
    {
        Tally {
            what,
            compared: 0,
            differences: 0,
        }
    }

    // Counts one more, up to what a u64 holds.
    pub fn count(&mut self, equal: bool)
        ensures what { self.new.what ≡ self.old.what }
        ensures compared { self.new.compared ≡ min (self.old.compared + 1) (2 ^ 64 - 1) }
        ensures equal { equal ≡ true → self.new.differences ≡ self.old.differences }
        ensures different { equal ≡ false → self.new.differences ≡ min (self.old.differences + 1) (2 ^ 64 - 1) }
    {
        self.compared = self.compared.saturating_add(1);
        if !equal {
            self.differences = self.differences.saturating_add(1);
        }
    }
}

impl fmt::Display for Tally {
    ghost output = { λ t. Some (decimal t.compared ++ (codes " " ++ (t.what.now ++ (codes ", " ++ (decimal t.differences ++ codes " differences"))))) };

    fn fmt<W: fmt::Write>(&self, f: &mut fmt::Formatter<W>) -> fmt::Result {
        let Tally {
            what,
            compared,
            differences,
        } = self;
        write!(f, "{compared} {what}, {differences} differences")
    }
}
