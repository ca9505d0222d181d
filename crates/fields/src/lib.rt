// What all kinds share over an operation's 16 words: its words and fields, registers, reads, operands and stepped pointers.
#![tactic(auto)]

pub mod operand;
pub mod pointer;
pub mod read;
pub mod registers;
pub mod space;
pub mod words;
