// What stands at a node, a leaf that was found, and what is asked of leaves.
use valuation::Valuation;

// Children by their numbers.
#[derive(Clone, Copy, Debug, PartialEq, Eq)]
pub enum Branch {
    // nothing comes from here
    Dead,
    // a condition and its child
    Condition(u16, u16),
    // the left child and the right
    Choice(u16, u16),
    // a variable and the child
    Sum(u16, u16),
    Leaf,
}

// A leaf, and the valuation on the way that led there.
#[derive(Clone, Copy)]
pub struct Found {
    pub node: u16,
    pub valuation: Valuation,
}

#[derive(Clone, Copy, Debug, PartialEq, Eq)]
pub enum Asked {
    Moves,
    Delays,
}
