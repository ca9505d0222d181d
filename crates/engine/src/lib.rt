// The engine of document 01: runs of a program file, from a state, in a lent memory, under a budget; the same over decoded operations; one step. The
// contract of `run` cites the definition of the run and the statement of exact sums against the ledger.
#![tactic(auto)]

pub mod call;
pub mod decoded;
pub mod outcome;
mod run;
pub mod single;
