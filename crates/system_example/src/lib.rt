// A small system and a layer over any, to try walks and explorations on.
#![tactic(auto)]

mod action;
mod failover;
mod rename;

pub use action::Action;
pub use failover::Failover;
pub use rename::Rename;
