// The ways down a tree of nodes to its leaves, one after the other: a loop with a stack of frames.
// It serves any nodes and any data language; a chain of sums is a tree too.
#![tactic(auto)]

mod branch;
mod counting;
mod cursor;
mod frames;
mod nodes;
mod seeking;

pub use branch::{Asked, Branch, Found};
pub use counting::count;
pub use nodes::Nodes;
pub use seeking::seek;
