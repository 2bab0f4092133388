// Data languages: expressions over variables, what each names, and its value under a valuation.
// Nothing here knows of models, formulas or tables.
#![tactic(auto)]

mod fault;
mod file;
mod questions;
mod record;
mod valuation;

pub use fault::DataFault;
pub use file::{FileLanguage, record_count};
pub use questions::Language;
pub use record::{FileRecord, records};
pub use valuation::variable_value;
