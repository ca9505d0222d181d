// Whole numbers: the definitions that the crates above share, the laws by which their proofs reach ℤ, and the low bits of a number.
#![tactic(auto)]

pub mod bits;
