// The reference's answers beside the power on the portable backend.
#![tactic(auto)]

use power::portable::Portable;
use std::io;

// All of it is `answers::run`, on this backend.
fn main(rt: HostRuntime) -> io::Result<()> {
    answers::run(&rt, &Portable {})
}
