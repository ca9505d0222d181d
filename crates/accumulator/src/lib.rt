// The accumulator rules of document 01. A word is a u16; an accumulator's value is an i64, which contracts speak of as a whole number.
// Each contract says that the result is what a definition of specs/ gives.
#![tactic(auto)]

pub mod limit;
pub mod mode;
pub mod product;
mod range;
pub mod shift;
pub mod status;
pub mod store;
