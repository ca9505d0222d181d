// Kinds 1 to 7 over an operation's words.
#![tactic(auto)]

pub mod mac;
