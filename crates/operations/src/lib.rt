// Operations of document 01: the types, and as definitions which are listed, 8 bytes to an operation and back. There is no code.
#![tactic(auto)]

pub mod operation;
