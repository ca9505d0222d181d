// The machine of document 01: types and definitions of writes, loops and repeat, and of one step. The code is the refusal of a call.
#![tactic(auto)]

pub mod control;
pub mod single;
