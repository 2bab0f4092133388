// Model files: a draft of bytes, accepted into a model or refused, and what a model has.
#![tactic(auto)]

mod model;
mod node;

pub use model::judge::{accept, open};
pub use model::{Draft, Model};
pub use node::{Node, Process};
