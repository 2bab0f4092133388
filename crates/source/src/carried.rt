// What a node has, and each tree above it with it: that it names a variable, or that it binds one.
ghost use Rattle.std.specs.Prelude.{◌≡◌, Bool};
ghost use Rattle.model.specs.Nodes.{NodeValue, node_value};
ghost use Rattle.source.specs.Nodes.{own_names, own_binds};

use crate::own::{binds, names_here};
use language::Language;
use model::Node;

pub(crate) trait Carried {
    // the node itself has it
    ghost at_node: { Self → NodeValue → Bool };

    fn at(&self, node: Node<'_>) -> bool
        ensures answer { result ≡ at_node self.now (node_value node.entry) };
}

// An expression names the variable.
#[derive(Clone, Copy)]
pub(crate) struct Names<'a, L> {
    pub(crate) language: &'a L,
    pub(crate) variable: u16,
}

// The variable is bound.
#[derive(Clone, Copy)]
pub(crate) struct Binds {
    pub(crate) variable: u16,
}

impl<L: Language> Carried for Names<'_, L> {
    ghost at_node = { λ s v. own_names (L.Language.meaning s.language.now) v s.variable };

    fn at(&self, node: Node<'_>) -> bool {
        names_here(self.language, node, self.variable)
    }
}

impl Carried for Binds {
    ghost at_node = { λ s v. own_binds v s.variable };

    fn at(&self, node: Node<'_>) -> bool {
        binds(node, self.variable)
    }
}
