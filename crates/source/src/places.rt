// Resting places: each body, and each child of an action or a delay but a call.
ghost use Rattle.std.specs.Prelude.{◌≡◌, ℕ, ◌<◌, ◌||◌, length};
ghost use Rattle.std.specs.List.{slice_get};
ghost use Rattle.model_file.specs.Layouts.{layout_of};
ghost use Rattle.model_rules.specs.Tallies.{body, moved, resting};
ghost use Rattle.model.specs.Flat.{flat};
ghost use Rattle.model.specs.Nodes.{node_in};
ghost use Rattle.source.specs.Counters.{body_is, leads_to, calling};
ghost use Rattle.source.specs.Sets.{has};

use crate::set::NodeSet;
use model::{Model, Node};

fn is_call(model: &Model, node: u16) -> bool
    ensures answer { result ≡ calling (node_in (flat model.now.bytes.now) node) }
{
    matches!(model.node(node), Some(Node::Call { .. }))
}

// The body of a process, if there is the process.
fn add_body(model: &Model, process: u16, bodies: &mut NodeSet)
    ensures leaves { (n : ℕ) → n < 256 → has bodies.new n ≡ (body_is (slice_get (flat model.now.bytes.now).processes process) n || has bodies.old n) }
{
    if let Some(here) = model.process(process) {
        bodies.insert(here.body);
    }
}

// The child of a node that is an action or a delay.
fn add_child(model: &Model, node: u16, moved: &mut NodeSet)
    ensures leaves { (n : ℕ) → n < 256 → has moved.new n ≡ (leads_to (node_in (flat model.now.bytes.now) node) n || has moved.old n) }
{
    match model.node(node) {
        Some(Node::Action { child, .. } | Node::Delay { child, .. }) => moved.insert(child),
        _ => {}
    }
}

fn body_nodes(model: &Model) -> NodeSet
    ensures answer { (n : ℕ) → n < 256 → has result n ≡ body model.now.bytes.now (layout_of model.now.bytes.now) n }
{
    let mut bodies = NodeSet::empty();
    for process in 0..model.process_count() {
        add_body(model, process, &mut bodies);
    }
    bodies
}

// One loop over the processes and this one over the nodes: a generic one would take what is added as a closure on the set,
// and be no shorter.
fn moved_nodes(model: &Model) -> NodeSet
    ensures answer { (n : ℕ) → n < 256 → has result n ≡ moved model.now.bytes.now (layout_of model.now.bytes.now) n }
{
    let mut moved = NodeSet::empty();
    for node in 0..model.node_count() {
        add_child(model, node, &mut moved);
    }
    moved
}

pub(crate) fn place_nodes(model: &Model) -> NodeSet
    ensures answer { (n : ℕ) → n < length (flat model.now.bytes.now).nodes → has result n ≡ resting model.now.bytes.now (layout_of model.now.bytes.now) n }
{
    let mut places = body_nodes(model);
    let moved = moved_nodes(model);
    for node in 0..model.node_count() {
        if moved.contains(node) & !is_call(model, node) {
            places.insert(node);
        }
    }
    places
}
