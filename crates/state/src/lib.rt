// The settings and the state of document 01, with refusals 6 and 7, reset and the status word. Each contract says that the answer is what a
// definition of specs/ gives.
#![tactic(auto)]

pub mod accept;
pub mod settings;
pub mod state;
