// Compares the fused sum with the kit's `mul_add` on triples that it makes from a seed: random ones,
// and hard ones of seven kinds. It prints every difference and the two counts.
#![tactic(auto)]

mod kinds;
mod seed;
mod triple;

use kinds::{apart, at_borders, cancelling, doubling, random, spaced, tied, with_zeros};
use seed::Seed;
use std::io;
use std::num::f64_to_bits_with_nan;
use tally::Tally;
use triple::Triple;

const ROUNDS: u32 = 16_000;

// Makes a triple of each kind in turn, and prints it if the two sums differ.
fn compare_kinds(rt: &impl Print, seed: &mut Seed, tally: &mut Tally) -> io::Result<()> {
    let kinds: [fn(&mut Seed) -> Triple; 8] = [
        random, cancelling, tied, spaced, apart, with_zeros, at_borders, doubling,
    ];
    for make in kinds {
        let triple = make(seed);
        let got = f64_to_bits_with_nan(triple.fused_sum());
        let expected = f64_to_bits_with_nan(triple.mul_add());
        tally.count(got == expected);
        if got != expected {
            println!(rt; "{triple}: {got:016x}, expected {expected:016x}")?;
        }
    }
    Ok(())
}

fn main(rt: HostRuntime) -> io::Result<()> {
    let mut seed = Seed {
        state: 0x9e37_79b9_7f4a_7c15,
    };
    let mut tally = Tally::new("triples");
    for _ in 0..ROUNDS {
        compare_kinds(&rt, &mut seed, &mut tally)?;
    }
    println!(rt; "{tally}")
}
