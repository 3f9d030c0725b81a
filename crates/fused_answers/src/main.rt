// The reference's answers beside the power on the fused backend.
#![tactic(auto)]

use power::fused::Fused;
use std::io;

// All of it is `answers::run`, on this backend.
fn main(rt: HostRuntime) -> io::Result<()> {
    answers::run(&rt, &Fused {})
}
