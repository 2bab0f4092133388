// A model file's six sections in file order: where each begins, what it has, and the first fault in it.
#![tactic(auto)]

mod fault;
mod file;
mod layout;
mod part;
mod sections;

pub use fault::{FaultCode, ModelFault};
pub use file::ModelFile;
pub use layout::{Layout, locate};
pub use part::run_fits;
pub use sections::check_sections;
