// Whole numbers, narrowing and pairs of doubles: the arithmetic below the power.
#![tactic(auto)]

pub mod bits;
pub mod double_double;
pub mod fused;
pub mod narrowing;
pub mod root;
pub mod rounding;
pub mod whole;
