// The line that is printed for a case, a step, a tally or a service.
#![tactic(auto)]

pub mod line;
mod run_fields;
mod state_fields;
