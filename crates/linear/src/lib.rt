// Linear equations: their type, lawful by construction, and the definition of their files.
#![tactic(auto)]

mod entry;
mod equation;
mod fault;
mod fixed;
mod item;
mod smallest;
mod spans;
mod summand;
mod table;

pub use entry::{Entry, NoEntry};
pub use equation::Equation;
pub use fault::{Group, HEAD, LinearFault, Place};
pub use fixed::FixedList;
pub use item::Item;
pub use spans::Doing;
pub use summand::{Act, ActionSummand, DelaySummand, EntryList, Guard, Summand, Target, WordList};
pub use table::{Table, Vector};
