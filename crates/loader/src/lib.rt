// Program files of document 01: where DO and REPEAT may stand, blocks, load and write.
// Each contract says that the answer, and what stands in a lent slice afterwards, is what a definition of program gives.
#![tactic(auto)]

mod accept;
pub mod block;
pub mod bytes;
pub mod file;
mod layout;
mod placement;
mod role;
pub mod trip;
pub mod write;
