// Text of the programs, as bytes: lines, words, and numbers in hexadecimal and decimal digits.
#![tactic(auto)]

pub mod decimal;
mod digits;
pub mod filter;
pub mod float;
pub mod hex;
pub mod input;
pub mod pieces;
