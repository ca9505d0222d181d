// Legs of a run over a window of decoded words.
#![tactic(auto)]

pub mod leg;
pub mod window;
