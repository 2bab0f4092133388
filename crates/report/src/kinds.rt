// How many nodes of each kind a model has.
ghost use Rattle.std.specs.Prelude.{◌≡◌, ◌≤◌, length};
ghost use Rattle.model.specs.Flat.{flat};
ghost use Rattle.model.specs.Nodes.{node_in, node_value};
ghost use Rattle.report.specs.Kinds.{add_kind, kinds_below, kind_total};
ghost use Rattle.std.specs.Option.{option_map};

use model::{Model, Node};

#[derive(Clone, Copy, Default)]
pub(crate) struct Kinds {
    pub(crate) calls: u64,
    pub(crate) conditions: u64,
    pub(crate) choices: u64,
    pub(crate) sums: u64,
    pub(crate) actions: u64,
    pub(crate) delays: u64,
}

// One node more, if there is one.
fn add_kind(kinds: Kinds, node: Option<Node<'_>>) -> Kinds
    requires { kind_total kinds ≤ 65535 }
    ensures answer { result ≡ add_kind kinds (option_map node_value node.entry) }
{
    let mut more = kinds;
    match node {
        Some(Node::Call { .. }) => more.calls += 1,
        Some(Node::Condition { .. }) => more.conditions += 1,
        Some(Node::Choice { .. }) => more.choices += 1,
        Some(Node::Sum { .. }) => more.sums += 1,
        Some(Node::Action { .. }) => more.actions += 1,
        Some(Node::Delay { .. }) => more.delays += 1,
        None => {}
    }
    more
}

pub(crate) fn count_kinds(model: &Model<'_>) -> Kinds
    ensures answer { result ≡ kinds_below (flat model.now.bytes.now) (length (flat model.now.bytes.now).nodes) }
{
    let mut kinds = Kinds::default();
    for n in 0..model.node_count() {
        kinds = add_kind(kinds, model.node(n));
    }
    kinds
}
