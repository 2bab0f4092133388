// What the two sides of a model share as systems: transitions as moves and delays, and labels.
#![tactic(auto)]

mod labels;

pub use labels::label;
