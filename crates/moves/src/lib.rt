// Kinds 8 to 18 over an operation's words.
#![tactic(auto)]

pub mod arithmetic;
pub mod transfer;
