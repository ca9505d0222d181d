// A life of service: bag after bag on one engine, its state and memory carried on. `serve` serves a list of bags in one call; what it promises holds as
// well of a controller that calls engine::call::run once for each bag.
#![tactic(auto)]

mod bag;
mod bags;
pub mod call;
