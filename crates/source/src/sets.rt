// What is in a set of nodes.
ghost use Rattle.std.specs.Prelude.{◌≡◌, ℕ, ◌<◌, false, not, ◌&&◌, ◌||◌, ◌==◌};
ghost use Rattle.source.specs.Sets.{has};

use crate::set::NodeSet;

impl NodeSet {
    // No node.
    pub fn empty() -> NodeSet
        ensures answer { (n : ℕ) → has result n ≡ false }
    {
        NodeSet {
            flags: [false; 256],
        }
    }

    pub fn contains(&self, node: u16) -> bool
        ensures answer { result ≡ has self.now node }
    {
        self.flags.get(usize::from(node)).copied().unwrap_or(false)
    }

    // One node more; a number that no node has changes nothing.
    pub fn insert(&mut self, node: u16)
        ensures leaves { (n : ℕ) → n < 256 → has self.new n ≡ (node == n || has self.old n) }
    {
        let at = usize::from(node);
        if at < self.flags.len() {
            self.flags[at] = true;
        }
    }

    // The nodes of this set that are not in the other.
    pub(crate) fn without(&self, other: &NodeSet) -> NodeSet
        ensures answer { (n : ℕ) → has result n ≡ (has self.now n && not (has other.now n)) }
    {
        let mut flags = self.flags;
        // By place: of what is written through `zip` with `iter_mut` nothing is known.
        for (node, flag) in flags.iter_mut().enumerate() {
            *flag &= !other.flags[node];
        }
        NodeSet { flags }
    }
}
