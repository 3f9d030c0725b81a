// Runs: lists of calls made on one strip, with the law over all of them.
#![tactic(auto)]

pub mod answer;
pub mod example;
pub mod run;
pub mod state;
