// Whether a data language fits a model: every expression that a node uses is there, and names only variables in scope.
#![tactic(auto)]

mod fault;
mod fitting;
mod scope;
mod uses;

pub use fault::FitFault;
pub use fitting::fits;
