// Formulas: the data language whose expressions are cells, each an operation on cells before it.
#![tactic(auto)]

mod answers;
mod cell;
mod decode;
mod formula;
mod questions;
mod reading;

pub use formula::Formula;
