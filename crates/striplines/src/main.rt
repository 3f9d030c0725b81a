// Calls of a strip, one a line, from standard input, and their answers to standard output.
#![tactic(auto)]

use std::io;
use striptext::answers;
use text::filter::filter;

fn main(rt: HostRuntime) -> io::Result<()> {
    // A closure, since the contract of a function from a private module has no name here.
    filter(rt.alloc(), rt.stdin(), &mut rt.stdout(), |heap, input| {
        answers(heap, input)
    })
}
