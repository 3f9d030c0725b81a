// Runs a list of the reference's answers on a backend, and counts the differences.
// A line is three bit patterns in hexadecimal: x, y and the expected power.
#![tactic(auto)]

ghost use Rattle.std.specs.Prelude.{◌≡◌, from_bits};
ghost use Rattle.std.specs.Float.{binary32};
ghost use Rattle.std.specs.Float.Ieee.{to_bits};
ghost use Rattle.power.specs.Powf.{power};

use power::backend::PowfBackend;
use power::powf::f_powf;
use std::io;
use std::io::{BufRead, BufReader};
use std::num::{f32_from_bits_with_nan, f32_to_bits_with_nan};
use std::str::FromStr;
use tally::Tally;

#[derive(Clone, Copy)]
pub struct Case {
    pub x: u32,
    pub y: u32,
    pub expected: u32,
}

// A line of the list.
#[derive(Clone, Copy)]
struct Line(Case);

// A line that is no case.
#[derive(Clone, Copy, Debug)]
struct NoCase;

fn pattern(word: Option<&str>) -> Result<u32, NoCase> {
    u32::from_str_radix(word.ok_or(NoCase)?, 16).map_err(|_| NoCase)
}

impl FromStr for Line {
    type Err = NoCase;

    fn from_str(line: &str) -> Result<Line, NoCase> {
        let mut words = line.split_whitespace();
        let x = pattern(words.next())?;
        let y = pattern(words.next())?;
        let expected = pattern(words.next())?;
        Ok(Line(Case { x, y, expected }))
    }
}

impl Case {
    // The pattern of the power, from those of x and y.
    pub fn power<B: PowfBackend>(self, backend: &B) -> u32
        ensures { result ≡ to_bits binary32 (power (B.PowfBackend.meaning backend.now) (from_bits binary32 self.x) (from_bits binary32 self.y)) }
    {
        let x = f32_from_bits_with_nan(self.x);
        let y = f32_from_bits_with_nan(self.y);
        f32_to_bits_with_nan(f_powf(x, y, backend))
    }
}

// Reads the list from standard input; prints each difference, and the two counts last.
pub fn run<R: Input + AllocGlobal + Print, B: PowfBackend>(rt: &R, backend: &B) -> io::Result<()> {
    let mut tally = Tally::new("answers");
    for line in BufReader::new(rt.alloc(), rt.reader())?.lines(rt.alloc()) {
        let line = line?;
        let Ok(Line(case)) = line.parse::<Line>() else {
            tally.count(false);
            let number = tally.compared;
            println!(rt; "line {number} is no case")?;
            continue;
        };
        let got = case.power(backend);
        tally.count(got == case.expected);
        if got != case.expected {
            let Case { x, y, expected } = case;
            println!(rt; "{x:08x} {y:08x}: {got:08x}, expected {expected:08x}")?;
        }
    }
    println!(rt; "{tally}")
}
