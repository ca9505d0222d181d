// One step over an operation's words, all kinds. The code is lent words, registers and memory, and is handed the rest of a state by value.
#![tactic(auto)]

pub mod pair;
pub mod registers;
pub mod step;
mod work;
