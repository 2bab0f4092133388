// Where a variable is in scope: at the body of its process, and at what stands below a node that binds it.
// The sets are filled forwards, since children are higher than their parents.
ghost use Rattle.std.specs.Prelude.{◌≡◌, ℕ, ◌<◌, ◌||◌};
ghost use Rattle.std.specs.List.{slice_get};
ghost use Rattle.model.specs.Flat.{flat};
ghost use Rattle.model.specs.Nodes.{node_value, node_in};
ghost use Rattle.source.specs.Sets.{has};
ghost use Rattle.fit.specs.Scopes.{parameter, begins, is_child, handed, starts, in_scope};

use model::{Model, Node, Process};
use source::{NodeSet, binds};

fn is_parameter(process: Process, variable: u16) -> bool
    ensures answer { result ≡ parameter process variable }
{
    let first = u32::from(process.first);
    (first..first + u32::from(process.number)).contains(&u32::from(variable))
}

fn add_children(scope: &mut NodeSet, node: Node<'_>)
    ensures leaves { (k : ℕ) → k < 256 → has scope.new k ≡ (is_child (node_value node.entry) k || has scope.old k) }
{
    match node {
        Node::Call { .. } => {}
        Node::Choice { left, right } => {
            scope.insert(left);
            scope.insert(right);
        }
        Node::Condition { child, .. }
        | Node::Sum { child, .. }
        | Node::Action { child, .. }
        | Node::Delay { child, .. } => scope.insert(child),
    }
}

// The body of a process has its parameters in scope.
fn add_body(model: &Model, variable: u16, process: u16, bodies: &mut NodeSet)
    ensures leaves { (k : ℕ) → k < 256 → has bodies.new k ≡ (begins (slice_get (flat model.now.bytes.now).processes process) variable k || has bodies.old k) }
{
    if let Some(here) = model.process(process) {
        if is_parameter(here, variable) {
            bodies.insert(here.body);
        }
    }
}

// A node hands to its children what is in scope at it, and what it binds.
fn hand_down(model: &Model, variable: u16, node: u16, here: bool, scope: &mut NodeSet)
    ensures leaves { (k : ℕ) → k < 256 → has scope.new k ≡ handed (node_in (flat model.now.bytes.now) node) variable here k (has scope.old k) }
{
    if let Some(parent) = model.node(node) {
        if binds(parent, variable) | here {
            add_children(scope, parent);
        }
    }
}

// `source` has such a loop over all processes. The two differ in what they add: a shared one would be public and take that as
// a closure, which would have to be callable by a `requires`.
fn body_nodes(model: &Model, variable: u16) -> NodeSet
    ensures answer { (k : ℕ) → k < 256 → has result k ≡ starts (flat model.now.bytes.now) variable k }
{
    let mut bodies = NodeSet::empty();
    for process in 0..model.process_count() {
        add_body(model, variable, process, &mut bodies);
    }
    bodies
}

// The nodes at which a variable is in scope.
pub(crate) fn scope_nodes(model: &Model, variable: u16) -> NodeSet
    ensures answer { (k : ℕ) → k < 256 → has result k ≡ in_scope (flat model.now.bytes.now) k variable }
{
    let mut scope = body_nodes(model, variable);
    for node in 0..model.node_count() {
        let here = scope.contains(node);
        hand_down(model, variable, node, here, &mut scope);
    }
    scope
}
