// The expressions that a node uses: arguments, a condition, a rate, and the weight of an action.
ghost use Rattle.std.specs.Prelude.{◌≡◌, nat_le};
ghost use Rattle.std.specs.List.{list_any};
ghost use Rattle.model.specs.Nodes.{node_value};
ghost use Rattle.source.specs.Nodes.{words_in};
ghost use Rattle.fit.specs.Uses.{uses_beyond, strays};

use language::Language;
use model::Node;
use source::names_any;

fn any_beyond(count: u16, arguments: &[u8]) -> bool
    ensures answer { result ≡ list_any (nat_le count) (words_in arguments.now) }
{
    let (words, _) = arguments.as_chunks::<2>();
    words.iter().any(|word| u16::from_be_bytes(*word) >= count)
}

// Whether a node uses an expression from `count` up.
// `source` asks each node's expressions for names in a match like this one: a test passed as a value of a trait takes
// more lines than the match, and a closure passed to a public function would have to be callable by a `requires`.
pub(crate) fn uses_beyond(count: u16, node: Node<'_>) -> bool
    ensures answer { result ≡ uses_beyond count (node_value node.entry) }
{
    match node {
        Node::Call { arguments, .. } => any_beyond(count, arguments),
        Node::Condition { expression, .. } => expression >= count,
        Node::Choice { .. } | Node::Sum { .. } => false,
        Node::Action {
            arguments,
            weight,
            ..
        } => any_beyond(count, arguments) | (weight >= count),
        Node::Delay { rate, .. } => rate >= count,
    }
}

// Whether a node uses an expression that names a variable out of scope; `here` says whether it is in scope at the node.
pub(crate) fn names_stray<L: Language>(
    language: &L,
    node: Node<'_>,
    variable: u16,
    here: bool,
) -> bool
    ensures answer { result ≡ strays (L.Language.meaning language.now) variable here (node_value node.entry) }
{
    match node {
        Node::Call { arguments, .. } => names_any(language, arguments, variable) & !here,
        Node::Condition { expression, .. } => language.names(expression, variable) & !here,
        Node::Choice { .. } | Node::Sum { .. } => false,
        Node::Action {
            arguments,
            variable: bound,
            weight,
            ..
        } => {
            (names_any(language, arguments, variable) & !here)
                | (language.names(weight, variable) & !((bound == variable) | here))
        }
        Node::Delay { rate, .. } => language.names(rate, variable) & !here,
    }
}
