// Powers as text: an input of lines, each with two bit patterns, and a line of output for each.
#![tactic(auto)]

ghost use Rattle.std.specs.Prelude.{◌≡◌, ◌≤◌, [], ◌∷◌, ◌++◌, length, string_bytes, IfOk, OnOk};
ghost use Rattle.std.specs.Option.{option_map};
ghost use Rattle.power.specs.Backend.{portable};
ghost use Rattle.power.specs.Powf.{power};
ghost use Rattle.powtext.specs.Format as Format;
ghost use Rattle.text.specs.Input.{max_input};
ghost use Rattle.text.specs.Pieces.{lines, newline};

use power::portable::Portable;
use power::powf::f_powf;
use std::alloc::{AllocError, Global};
use text::float::{Bits, read_float};
pub use text::input::MAX_INPUT;
use text::input::{TOO_LONG, bounded};
use text::pieces::lines;

// The floats of a good line.
#[derive(Clone, Copy)]
struct Pair {
    x: f32,
    y: f32,
}

impl Pair {
    // The pair that a line gives, if it is a good one.
    fn read(line: &[u8]) -> Option<Pair>
        ensures { result ≡ option_map Format.pair (Format.parsed line.now) }
    {
        if line.len() != 17 || line[8] != b' ' {
            return None;
        }
        let x = read_float(&line[..8])?;
        let y = read_float(&line[9..])?;
        Some(Pair { x, y })
    }

    fn power(self) -> f32
        ensures { result ≡ power portable self.x self.y }
    {
        f_powf(self.x, self.y, &Portable {})
    }
}

// Adds the answer to the line of this number.
fn write_answer(out: &mut String, number: usize, line: &[u8]) -> Result<(), AllocError>
    ensures { OnOk result (string_bytes out.new ≡ string_bytes out.old ++ (Format.answer number line.now ++ newline ∷ [])) }
{
    match Pair::read(line) {
        Some(pair) => writeln!(out, "{}", Bits(pair.power())),
        None => writeln!(out, "bad {number}"),
    }
}

// The answers to the lines of `text`, which are numbered from 1.
#[tactic(auto, unfolding(crate::specs::Format::answered))]
fn answer_lines(heap: Global, text: &[u8]) -> Result<String, AllocError>
    requires { length text.now ≤ max_input }
    ensures { IfOk result (λ s. string_bytes s ≡ Format.answered 1 (lines text.now)) }
{
    let mut out = String::new(heap);
    for (i, line) in lines(text).enumerate() {
        write_answer(&mut out, i + 1, line)?;
    }
    Ok(out)
}

// What is written for `input`: an answer to each of its lines, or that it is too long.
pub fn answers(heap: Global, input: &[u8]) -> Result<Vec<u8>, AllocError>
    ensures { IfOk result (λ v. v.items ≡ Format.output input.now) }
{
    let Some(text) = bounded(input) else {
        return Vec::from_slice(heap, TOO_LONG);
    };
    Ok(answer_lines(heap, text)?.into_bytes())
}
