// Nodes with trees: a node's tree is made of its children's, which are higher.
ghost use Rattle.std.specs.Prelude.{◌≡◌, ℕ, ◌≤◌, Bool, true, List};
ghost use Rattle.language.specs.Meanings.{Meaning, value_at};
ghost use Rattle.ways.specs.Leaves.{Leaf, most, most_leaves, leaf_of};
ghost use Rattle.ways.specs.Trees.{Tree, rising, planted};
ghost use Rattle.ways.specs.declared.branch.Asked.{Asked};

use crate::branch::{Asked, Branch, Found};
use language::Language;

pub trait Nodes {
    // the tree of each node
    ghost tree: { Self → ℕ → Tree };

    // the sizes of the variables
    ghost sizes: { Self → List ℕ };

    // the leaves that count for what is asked, where expressions mean this
    ghost lives: { Self → Asked → Meaning → Leaf → Bool };

    // What stands at a node.
    fn branch(&self, node: u16) -> Branch
        ensures rising { rising node result ≡ true }
        ensures answer { tree self.now node ≡ planted node result (tree self.now) };

    // The size of a variable; 0 where there is none.
    fn size(&self, variable: u16) -> u16
        ensures answer { result ≡ value_at (sizes self.now) variable };

    // Whether a leaf counts.
    fn lives<L: Language>(&self, asked: Asked, language: &L, found: &Found) -> bool
        ensures answer { result ≡ lives self.now asked (L.Language.meaning language.now) (leaf_of found.now) };

    ghost few: { (s : Self) (n : ℕ) → most (sizes s) (tree s n) ≤ most_leaves };
}
