// Operations of document 01 and their bytes: which are listed, 8 bytes to an operation and back.
// Each contract says that the answer is what a definition of operations gives.
#![tactic(auto)]

pub mod decode;
pub mod encode;
pub mod listed;
