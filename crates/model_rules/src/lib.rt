// The rules that hold over a whole model file: what is named is there, each node is placed once and each variable bound
// once, calls follow actions and delays, and the ways down are within their limits.
#![tactic(auto)]

mod names;
mod places;
mod rules;
mod shape;
mod tally;
mod ways;

pub use rules::check_rules;
pub use shape::{Shape, shape_at};
