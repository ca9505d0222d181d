// Addresses: byte addresses and words, regions of memory and their traps, the plain, circular and bit-reversed steps of a pointer.
// Each contract says that the result is what a definition of specs/ gives.
#![tactic(auto)]

pub mod region;
pub mod reversal;
pub mod step;
pub mod trap;
pub mod word;
