// How a run ends, by name, number and code.
#![tactic(auto)]

pub mod ending;
