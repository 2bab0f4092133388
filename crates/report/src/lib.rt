// The text that the programs write, made from the library's answers.
#![tactic(auto)]

mod data;
mod kinds;
mod refusal;
mod summary;
mod verb;

pub use refusal::{Refusal, ReportFault};
pub use verb::{DataLanguage, Verb, run};
