// Calls of a strip as text: an input of lines, each with a call, and a line of output for each.
#![tactic(auto)]

mod name;
mod session;
mod step;
mod word;
mod written;

pub use session::answers;
pub use text::input::MAX_INPUT;
