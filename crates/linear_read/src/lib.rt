// Linear equations from their files.
#![tactic(auto)]

mod checks;
mod head;
mod parts;
mod reader;
mod reading;
mod rules;
mod sections;

pub use reading::read;
