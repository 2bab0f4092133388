// Free variables: at each node, from the highest down, since children are higher.
ghost use Rattle.std.specs.Prelude.{◌≡◌, ℕ, ◌<◌, ◌≤◌, true, false, length};
ghost use Rattle.model.specs.Flat.{flat};
ghost use Rattle.model.specs.Nodes.{node_in};
ghost use Rattle.model.specs.Trees.{tree_of};
ghost use Rattle.source.specs.Free.{free, FreeAt};
ghost use Rattle.source.specs.Nodes.{carried_by};
ghost use Rattle.source.specs.Sets.{has};
ghost use Rattle.words.specs.Headers.{Iff};

use crate::carried::{Binds, Carried, Names};
use crate::own::any_child_in;
use crate::set::NodeSet;
use language::Language;
use model::Model;

// Whether a node has what is sought, or a child whose tree is known to have it.
fn carries<C: Carried>(model: &Model, sought: &C, node: u16, known: &NodeSet) -> bool
    ensures answer { result ≡ carried_by (C.Carried.at_node sought.now) (has known.now) (node_in (flat model.now.bytes.now) node) }
{
    let here = model.node(node);
    here.is_some_and(|here| sought.at(here) | any_child_in(known, here))
}

// The nodes that have what is sought, and those above them.
fn carriers<C: Carried>(model: &Model, sought: &C) -> NodeSet
    ensures within { (n : ℕ) → n < length (flat model.now.bytes.now).nodes → has result n ≡ carried_by (C.Carried.at_node sought.now) (has result) (node_in (flat model.now.bytes.now) n) }
    ensures beyond { (n : ℕ) → length (flat model.now.bytes.now).nodes ≤ n → has result n ≡ false }
{
    let mut found = NodeSet::empty();
    for node in (0..model.node_count()).rev() {
        if carries(model, sought, node, &found) {
            found.insert(node);
        }
    }
    found
}

// The nodes at which a variable is free.
pub fn free_nodes<L: Language>(model: &Model, language: &L, variable: u16) -> NodeSet
    ensures answer { (n : ℕ) → has result n ≡ free (L.Language.meaning language.now) (tree_of (flat model.now.bytes.now) n) variable }
    ensures rules { (n : ℕ) → Iff (has result n ≡ true) (FreeAt (L.Language.meaning language.now) (tree_of (flat model.now.bytes.now) n) variable) }
{
    let named = carriers(model, &Names { language, variable });
    let bound = carriers(model, &Binds { variable });
    named.without(&bound)
}
