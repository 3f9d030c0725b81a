// The control strip: patches under curves, over any backend of the power.
#![tactic(auto)]

pub mod call;
mod cells;
pub mod curve;
pub mod patch;
pub mod refusal;
pub mod strip;
