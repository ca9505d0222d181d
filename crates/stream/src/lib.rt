// The case stream that the simulator writes: a case's header, its words of memory, its boards, and why it stops.
#![tactic(auto)]

pub mod boards;
pub mod bytes;
pub mod count;
pub mod header;
pub mod memory;
pub mod part;
pub mod reading;
pub mod stop;
