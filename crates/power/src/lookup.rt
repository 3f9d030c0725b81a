// Places in the tables, and the entries there as values.
ghost use Rattle.std.specs.Prelude.{◌≡◌, ◌<◌};
ghost use Rattle.power.specs.Lookup as Lookup;

use crate::tables;
use pairs::double_double::DoubleDouble;
use std::marker::Model;

// A place in a table of N entries.
#[derive(Clone, Copy)]
pub struct Place<const N: usize> {
    index: usize,
}

// Clauses see the index.
impl<const N: usize> Model for Place<N> {
    ghost use Rattle.std.specs.Prelude.{ℕ, ◌<◌};

    ghost Value = { ℕ };

    ghost view = { λ p. p.index };

    ghost invariant = { λ p. p.index < N };

    ghost inverse = { λ i. record { index = i } };
}

impl<const N: usize> Place<N> {
    pub(crate) fn new(index: usize) -> Place<N>
        requires { index < N }
        ensures { result ≡ index }
    {
        Place { index }
    }

    pub(crate) fn index(self) -> usize
        ensures value { result ≡ self.entry }
        ensures bound { result < N }
    {
        self.index
    }
}

// The f64 of a bit pattern.
pub(crate) fn f64_of(bits: u64) -> f64
    ensures { result ≡ Lookup.f64 bits }
{
    std::num::f64_from_bits_with_nan(bits)
}

// Each table of the code is tied to its list in specs/ by one function.

#[tactic(auto, unfolding(crate::specs::Lookup::range_reduction))]
pub(crate) fn range_reduction(i: Place<128>) -> f64
    ensures { result ≡ Lookup.range_reduction i }
{
    f64_of(tables::LOG_RANGE_REDUCTION[i.index()])
}

#[tactic(auto, unfolding(crate::specs::Lookup::log2_r))]
pub(crate) fn log2_r(i: Place<128>) -> f64
    ensures { result ≡ Lookup.log2_r i }
{
    f64_of(tables::LOG2_R[i.index()])
}

#[tactic(auto, unfolding(crate::specs::Lookup::log2_r_td))]
pub(crate) fn log2_r_td(i: Place<128>) -> (f64, f64, f64)
    ensures { result ≡ Lookup.log2_r_td i }
{
    let (a, b, c) = tables::LOG2_R_TD[i.index()];
    (f64_of(a), f64_of(b), f64_of(c))
}

#[tactic(auto, unfolding(crate::specs::Lookup::powf_r2))]
pub(crate) fn powf_r2(i: Place<193>) -> f64
    ensures { result ≡ Lookup.powf_r2 i }
{
    f64_of(tables::POWF_R2[i.index()])
}

#[tactic(auto, unfolding(crate::specs::Lookup::log2_r2_dd))]
pub(crate) fn log2_r2_dd(i: Place<193>) -> DoubleDouble
    ensures { result ≡ Lookup.log2_r2_dd i }
{
    DoubleDouble::from_bit_pair(tables::LOG2_R2_DD[i.index()])
}

// The bit patterns of 2^(i/64), the low part's first.
#[tactic(auto, unfolding(crate::specs::Lookup::exp2_mid))]
pub(crate) fn exp2_mid(i: Place<64>) -> (u64, u64)
    ensures { result ≡ Lookup.exp2_mid i }
{
    tables::EXP2_MID1[i.index()]
}
