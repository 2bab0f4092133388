// Terms of a model and their derivations, where variables are free, and program counters.
#![tactic(auto)]

mod carried;
mod free;
mod numbering;
mod own;
mod places;
mod rules;
mod set;
mod sets;

pub use free::free_nodes;
pub use numbering::{Counter, counters};
pub use own::{binds, names_any};
pub use set::NodeSet;
