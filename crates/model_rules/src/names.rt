// Whether what a process or a node names is there.
ghost use Rattle.std.specs.Prelude.{◌≡◌};
ghost use Rattle.model_rules.specs.Shapes.{shape_at};
ghost use Rattle.model_rules.specs.Names.{child_fits, body_named, named};

use crate::shape::{Shape, shape_at};
use model_file::{ModelFile, run_fits};

// A child is a node, and higher than its parent.
fn child_fits(nodes: u16, parent: u16, child: u16) -> bool
    ensures answer { result ≡ child_fits nodes parent child }
{
    parent < child && child < nodes
}

pub(crate) fn body_named(file: &ModelFile<'_>, process: u16) -> bool
    ensures answer { result ≡ body_named file.now.bytes.now file.now.layout process }
{
    file.body(process) < file.node_count()
}

pub(crate) fn node_named(file: &ModelFile<'_>, node: u16) -> bool
    ensures answer { result ≡ named file.now.bytes.now file.now.layout node (shape_at file.now.bytes.now file.now.layout node) }
{
    let nodes = file.node_count();
    match shape_at(file, node) {
        None => false,
        Some(Shape::Call { process, arguments }) => {
            process < file.process_count()
                && run_fits(file.argument_count(), arguments, file.number(process))
        }
        Some(Shape::Choice { left, right }) => child_fits(nodes, node, left)
            && child_fits(nodes, node, right),
        Some(Shape::Sum { variable, child }) => variable < file.variable_count()
            && child_fits(nodes, node, child),
        Some(
            Shape::Action {
                action,
                arguments,
                variable,
                child,
                ..
            },
        ) => {
            action < file.action_count()
                && run_fits(file.argument_count(), arguments, file.arity(action))
                && variable < file.variable_count()
                && child_fits(nodes, node, child)
        }
        Some(Shape::Condition { child, .. } | Shape::Delay { child, .. }) => child_fits(
            nodes, node, child,
        ),
    }
}
