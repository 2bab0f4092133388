// Questions, walks and plays of a small system.
#![tactic(auto)]

#[cfg(test)]
mod questions;
#[cfg(test)]
mod walks;
