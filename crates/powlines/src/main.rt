// The powers of pairs of bit patterns, a pair to a line, from standard input to standard output.
#![tactic(auto)]

use powtext::answers;
use std::io;
use text::filter::filter;

fn main(rt: HostRuntime) -> io::Result<()> {
    filter(rt.alloc(), rt.stdin(), &mut rt.stdout(), answers)
}
