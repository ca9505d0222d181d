// One long sum on several boards: the call that adds the boards' A through the accumulator rules, and when its sum is that of all products.
#![tactic(auto)]

pub mod board;
pub mod call;
mod sum;
