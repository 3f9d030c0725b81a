// The worked run, made on both backends: a line for each answer.
#![tactic(auto)]

use power::backend::PowfBackend;
use power::fused::Fused;
use power::portable::Portable;
use runs::answer::Answer;
use runs::example::{worked_lists, worked_run};
use runs::run::replay;
use std::{fmt, io};
use strip::patch::View;

// An answer as it is printed here: with what a number is, and floats in decimals.
#[derive(Clone, Copy)]
struct Line(Answer);

impl fmt::Display for Line {
    fn fmt<W: fmt::Write>(&self, f: &mut fmt::Formatter<W>) -> fmt::Result {
        match self.0 {
            Answer::NotAllowed => write!(f, "not allowed"),
            Answer::Refused(refusal) => write!(f, "{refusal}"),
            Answer::Count(n) => write!(f, "count {n}"),
            Answer::Value(x) => write!(f, "value {x}"),
            Answer::Patch(
                View {
                    reading,
                    curve,
                    shown,
                },
            ) => write!(f, "reading {reading} curve {curve} shown {shown}"),
            Answer::Done => write!(f, "done"),
        }
    }
}

fn run<B: PowfBackend + Drop>(rt: &HostRuntime, backend: B) -> io::Result<()> {
    let steps = worked_run(&backend);
    let mut lists = worked_lists(rt.alloc())?;
    let done = replay(rt.alloc(), backend, &mut lists, &steps)?;
    for answer in &done.answers {
        println!(rt; "{}", Line(*answer))?;
    }
    let own = done.own;
    println!(rt; "own list {own}")
}

fn both(rt: &HostRuntime) -> io::Result<()> {
    println!(rt; "portable")?;
    run(rt, Portable {})?;
    println!(rt; "fused")?;
    run(rt, Fused {})
}

fn main(rt: HostRuntime) -> io::Result<()> {
    both(&rt)
}
