// A frame of a cursor's stack.
ghost use Rattle.std.specs.Prelude.{◌≡◌};

use valuation::Valuation;

// A node to go down from, under a valuation; a sum goes on from the value `from`.
#[derive(Clone, Copy)]
pub struct Frame {
    pub(crate) node: u16,
    pub(crate) from: u16,
    pub(crate) valuation: Valuation,
}

impl Frame {
    // A frame that begins at a node.
    pub(crate) fn new(node: u16, valuation: Valuation) -> Frame
        ensures { result ≡ record { node = node; from = 0; valuation = valuation } }
    {
        Frame {
            node,
            from: 0,
            valuation,
        }
    }
}

// Fills the places of a stack that are not in use.
impl Default for Frame {
    fn default() -> Frame {
        Frame::new(0, Valuation::new(&[]))
    }
}
