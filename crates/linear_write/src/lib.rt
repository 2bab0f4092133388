// Linear equations to their files.
#![tactic(auto)]

mod fault;
mod lengths;
mod parts;
mod section;
mod writer;
mod writing;

pub use fault::WriteFault;
pub use writing::write;
