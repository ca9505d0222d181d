// What each operation of document 01 comes to, before its result is limited and its store is done: the types, and as definitions what every kind comes
// to. There is no code.
#![tactic(auto)]

pub mod access;
pub mod effect;
pub mod mac;
pub mod pointer;
