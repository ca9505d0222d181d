// What follows an operation's work: its exact result limited and written, repeat left, loops and pc.
#![tactic(auto)]

pub mod control;
pub mod flow;
pub mod loops;
pub mod settle;
pub mod sums;
