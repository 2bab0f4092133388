// The cursor: the leaves of a node under a valuation, one after the other.
ghost use Rattle.std.specs.Prelude.{◌≡◌, ℕ, ◌+◌, ◌<◌, ◌≤◌, List, [], ◌∷◌, ◌++◌, length};
ghost use Rattle.language.specs.Meanings.{Meaning};
ghost use Rattle.valuation.specs.Valuations.{listed};
ghost use Rattle.ways.specs.Leaves.{leaves};
ghost use Rattle.ways.specs.Stacks.{Rising, top, below, remaining, Turned, Yields};
ghost use Rattle.ways.specs.Trees.{Tree};

use crate::branch::{Branch, Found};
use crate::frames::Frame;
use crate::nodes::Nodes;
use arrayvec::ArrayVec;
use language::Language;
use valuation::{Valuation, holds};

// Children are higher than their parents, so frame i is at a node of at least i, and 256 frames suffice.
#[derive(Drop)]
pub struct Cursor {
    pub(crate) frames: ArrayVec<Frame, 256>,
    ghost rising: { Rising frames.items },
}

impl Cursor {
    // A cursor at a node, under a valuation.
    pub(crate) fn new(node: u16, valuation: Valuation) -> Cursor
        ensures answer { (L : Meaning) (sizes : List ℕ) (tree : ℕ → Tree) → remaining L sizes tree result.frames.items ≡ leaves L sizes (tree node) (listed valuation) }
    {
        let mut frames = ArrayVec::new();
        frames.push(Frame::new(node, valuation));
        Cursor { frames }
    }

    // The frame on top, which is the last one.
    fn top(&self) -> Frame
        requires { 0 < length self.now.frames.items }
        ensures { result ≡ top self.now.frames.items }
    {
        self.frames[self.frames.len() - 1]
    }

    // Writes a frame over the top one.
    fn put(&mut self, frame: Frame)
        requires some { 0 < length self.old.frames.items }
        requires rises { length self.old.frames.items ≤ frame.node + 1 }
        ensures { self.new.frames.items ≡ below self.old.frames.items ++ frame ∷ [] }
    {
        let at = self.frames.len() - 1;
        self.frames[at] = frame;
    }

    // Takes the top frame off, and puts on what follows from it. Where something follows, it is written over that frame:
    // `pop` writes a blank first.
    fn turn<N: Nodes, L: Language>(&mut self, nodes: &N, language: &L) -> Option<Found>
        requires { 0 < length self.old.frames.items }
        ensures { Turned (L.Language.meaning language.now) (N.Nodes.sizes nodes.now) (N.Nodes.tree nodes.now) (top self.old.frames.items) (below self.old.frames.items) result self.new.frames.items }
    {
        let frame = self.top();
        let node = frame.node;
        let valuation = frame.valuation;
        match nodes.branch(node) {
            Branch::Dead => {
                self.frames.pop();
                None
            }
            Branch::Condition(condition, child) => {
                if holds(language, condition, &valuation) {
                    self.put(Frame::new(child, valuation));
                } else {
                    self.frames.pop();
                }
                None
            }
            Branch::Choice(left, right) => {
                self.put(Frame::new(right, valuation));
                self.frames.push(Frame::new(left, valuation));
                None
            }
            Branch::Sum(variable, child) => {
                if frame.from < nodes.size(variable) {
                    self.put(Frame {
                        from: frame.from + 1,
                        ..frame
                    });
                    let set = valuation.with(variable, frame.from);
                    self.frames.push(Frame::new(child, set));
                } else {
                    self.frames.pop();
                }
                None
            }
            Branch::Leaf => {
                self.frames.pop();
                Some(Found { node, valuation })
            }
        }
    }

    // The next leaf.
    pub(crate) fn next<N: Nodes, L: Language>(&mut self, nodes: &N, language: &L) -> Option<Found>
        ensures { Yields result (remaining (L.Language.meaning language.now) (N.Nodes.sizes nodes.now) (N.Nodes.tree nodes.now) self.old.frames.items) (remaining (L.Language.meaning language.now) (N.Nodes.sizes nodes.now) (N.Nodes.tree nodes.now) self.new.frames.items) }
    {
        while !self.frames.is_empty() {
            if let Some(leaf) = self.turn(nodes, language) {
                return Some(leaf);
            }
        }
        None
    }
}
