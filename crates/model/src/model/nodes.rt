// Nodes with their arguments.
ghost use Rattle.std.specs.Prelude.{◌≡◌, true, Some, is_ok};
ghost use Rattle.std.specs.Option.{option_map};
ghost use Rattle.model_file.specs.Layouts.{layout_of};
ghost use Rattle.model.specs.Accept.{judged};
ghost use Rattle.model.specs.Flat.{flat};
ghost use Rattle.model.specs.Nodes.{node_value, argument_bytes, value_at, node_in};

use super::Model;
use crate::node::Node;
use model_file::{Layout, ModelFile};
use model_rules::{Shape, shape_at};

// The bytes of `number` arguments from `first` on.
fn arguments<'a>(file: &ModelFile<'a>, first: u16, number: u16) -> &'a [u8]
    ensures answer { result.now ≡ argument_bytes file.now.bytes.now file.now.layout first number }
{
    let rest = file.bytes.get(file.layout.argument(first)..).unwrap_or(&[]);
    rest.get(..2 * usize::from(number)).unwrap_or(rest)
}

// A node with its arguments in place of the first's number. Each kind is named: two of them count their arguments, each in
// its own way, and the others only change their type.
fn handed<'a>(file: &ModelFile<'a>, shape: Shape) -> Node<'a>
    ensures answer { Some (node_value result) ≡ value_at file.now.bytes.now file.now.layout (Some shape) }
{
    match shape {
        Shape::Call {
            process,
            arguments: first,
        } => Node::Call {
            process,
            arguments: arguments(file, first, file.number(process)),
        },
        Shape::Condition { expression, child } => Node::Condition { expression, child },
        Shape::Choice { left, right } => Node::Choice { left, right },
        Shape::Sum { variable, child } => Node::Sum { variable, child },
        Shape::Action {
            action,
            arguments: first,
            variable,
            weight,
            child,
        } => Node::Action {
            action,
            arguments: arguments(file, first, file.arity(action)),
            variable,
            weight,
            child,
        },
        Shape::Delay { rate, child } => Node::Delay { rate, child },
    }
}

// A node of an accepted file. Its bytes are passed by themselves, since only of such a slice is it known that each byte fits.
fn node_in<'a>(bytes: &'a [u8], layout: Layout, node: u16) -> Option<Node<'a>>
    requires lawful { is_ok (judged bytes.now) ≡ true }
    requires located { layout ≡ layout_of bytes.now }
    ensures answer { option_map node_value result ≡ node_in (flat bytes.now) node }
{
    let file = ModelFile { bytes, layout };
    if node >= file.node_count() {
        return None;
    }
    let shape = shape_at(&file, node)?;
    Some(handed(&file, shape))
}

impl<'a> Model<'a> {
    // A node, with its arguments as a part of the model file; none from the number of nodes up.
    pub fn node(&self, node: u16) -> Option<Node<'a>>
        ensures answer { option_map node_value result ≡ node_in (flat self.now.bytes.now) node }
    {
        node_in(self.bytes, self.layout, node)
    }
}
