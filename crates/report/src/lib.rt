// The line that is printed for a case, a step, a tally or a service, as definitions. There is no code but the two enums that they name.
#![tactic(auto)]

pub mod notice;
pub mod verb;
