// The power x^y of two f32, over any backend that shows the rules.
#![tactic(auto)]

pub mod backend;
mod fallback;
mod fast;
pub mod fused;
pub mod limits;
mod lookup;
mod polynomial;
pub mod portable;
pub mod powf;
mod reduction;
mod special;
mod tables;
mod whole;

pub use reduction::range_rule;
