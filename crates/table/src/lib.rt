// Tables: the data language whose expressions look values up by two variables.
#![tactic(auto)]

mod questions;
mod reading;
mod record;
mod table;
mod values;

pub use table::Table;
