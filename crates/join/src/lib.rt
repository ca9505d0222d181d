// Two filters in one file: the call that joins two program files, and what a run of the joined file comes to.
#![tactic(auto)]

pub mod call;
mod joined;
