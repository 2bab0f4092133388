// What a node itself names and binds, and what its children do.
ghost use Rattle.std.specs.Prelude.{◌≡◌};
ghost use Rattle.model.specs.Nodes.{node_value};
ghost use Rattle.source.specs.Free.{named_in};
ghost use Rattle.source.specs.Nodes.{words_in, own_names, own_binds, any_child};
ghost use Rattle.source.specs.Sets.{has};

use crate::set::NodeSet;
use language::Language;
use model::Node;

// Whether one of the expressions, which are given as words, names a variable.
pub fn names_any<L: Language>(language: &L, arguments: &[u8], variable: u16) -> bool
    ensures answer { result ≡ named_in (L.Language.meaning language.now) (words_in arguments.now) variable }
{
    let (words, _) = arguments.as_chunks::<2>();
    words
        .iter()
        .any(|word| language.names(u16::from_be_bytes(*word), variable))
}

pub(crate) fn names_here<L: Language>(language: &L, node: Node<'_>, variable: u16) -> bool
    ensures answer { result ≡ own_names (L.Language.meaning language.now) (node_value node.entry) variable }
{
    match node {
        Node::Call { arguments, .. } => names_any(language, arguments, variable),
        Node::Condition { expression, .. } => language.names(expression, variable),
        Node::Choice { .. } | Node::Sum { .. } => false,
        Node::Action {
            arguments,
            weight,
            ..
        } => names_any(language, arguments, variable) | language.names(weight, variable),
        Node::Delay { rate, .. } => language.names(rate, variable),
    }
}

// Whether a node itself binds a variable: a sum or an action does.
pub fn binds(node: Node<'_>, variable: u16) -> bool
    ensures answer { result ≡ own_binds (node_value node.entry) variable }
{
    match node {
        Node::Sum {
            variable: bound,
            ..
        }
        | Node::Action {
            variable: bound,
            ..
        } => bound == variable,
        _ => false,
    }
}

// Whether a child is in a set.
pub(crate) fn any_child_in(set: &NodeSet, node: Node<'_>) -> bool
    ensures answer { result ≡ any_child (has set.now) (node_value node.entry) }
{
    match node {
        Node::Call { .. } => false,
        Node::Choice { left, right } => set.contains(left) | set.contains(right),
        Node::Condition { child, .. }
        | Node::Sum { child, .. }
        | Node::Action { child, .. }
        | Node::Delay { child, .. } => set.contains(child),
    }
}
