// Text on a line of fixed size: numbers in decimal, words in hexadecimal, fields, check numbers.
#![tactic(auto)]

pub mod check;
pub mod item;
pub mod line;
pub mod magnitude;
