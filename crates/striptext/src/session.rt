// An input of calls, made one after another on one strip, with a line of output for each line.
ghost use Rattle.std.specs.Prelude.{◌≡◌, map, IfOk, vec_items, string_bytes};
ghost use Rattle.std.specs.List.{AllByRecursion};
ghost use Rattle.striptext.specs.Session as Spec;
ghost use Rattle.striptext.specs.Step as Steps;
ghost use Rattle.text.specs.Pieces as Pieces;

use crate::step::read_step;
use crate::written::Written;
use power::portable::Portable;
use runs::answer::Answer;
use runs::run::{Handed, Step, replay};
use std::alloc::{AllocError, Global};
use strip::patch::Patch;
use text::input::{TOO_LONG, bounded};
use text::pieces::lines;

// The call of each line, or none where it is no call.
fn read_lines(heap: Global, text: &[u8]) -> Result<Vec<Option<Step>>, AllocError>
    ensures { IfOk result (λ v. v.items ≡ map Steps.step (Pieces.lines text.now)) }
{
    lines(text).map(read_step).collect(heap)
}

// The calls among the lines.
fn calls(heap: Global, read: &[Option<Step>]) -> Result<Vec<Step>, AllocError>
    ensures { IfOk result (λ v. v.items ≡ Spec.calls read.now) }
{
    read.iter().filter_map(|line| *line).collect(heap)
}

// Lists of empty cells: under each number that a call names, one of so many.
fn lists_for(heap: Global, steps: &[Step]) -> Result<Vec<Vec<Patch>>, AllocError>
    ensures { IfOk result (λ v. AllByRecursion (Spec.Fits (map vec_items v.items)) steps.now) }
{
    let mut lists: Vec<Vec<Patch>> = Vec::new(heap);
    for step in steps {
        let Handed::Numbered(cells) = step.list else {
            continue;
        };
        // Numbers begin at 0.
        let count = cells.checked_add(1).ok_or(AllocError)?;
        lists.resize_with(lists.len().max(count), || Vec::new(heap))?;
        lists[cells].resize(cells, Patch::empty())?;
    }
    Ok(lists)
}

// What is written for the lines, with the answers of the calls among them.
#[tactic(auto, unfolding(crate::specs::Session::written))]
fn write_lines(
    heap: Global,
    read: &[Option<Step>],
    answers: &[Answer],
) -> Result<String, AllocError>
    ensures { IfOk result (λ out. string_bytes out ≡ Spec.written 1 read.now answers.now) }
{
    let mut out = String::new(heap);
    let mut left = answers.iter();
    for (i, line) in read.iter().enumerate() {
        match line {
            None => writeln!(out, "bad {}", i + 1)?,
            Some(_) => match left.next() {
                Some(answer) => writeln!(out, "{}", Written(*answer))?,
                None => writeln!(out)?,
            },
        }
    }
    Ok(out)
}

// What is written for `input`: a line for each of its lines, or that it is too long.
#[tactic(auto, unfolding(crate::specs::Session::output))]
pub fn answers(heap: Global, input: &[u8]) -> Result<Vec<u8>, AllocError>
    ensures { IfOk result (λ v. v.items ≡ Spec.output input.now) }
{
    let Some(text) = bounded(input) else {
        return Vec::from_slice(heap, TOO_LONG);
    };
    let read = read_lines(heap, text)?;
    let steps = calls(heap, &read)?;
    let mut lists = lists_for(heap, &steps)?;
    let done = replay(heap, Portable {}, &mut lists, &steps)?;
    let out = write_lines(heap, &read, &done.answers)?;
    Ok(out.into_bytes())
}
