// Where nodes are placed and variables bound, and which nodes are resting places.
ghost use Rattle.std.specs.Prelude.{◌≡◌};
ghost use Rattle.model_rules.specs.Tallies.{node_once, variable_once, moved, body, call_placed, resting, is_call, is_parameter};

use crate::shape::{Shape, shape_at};
use crate::tally::{binders_of, children_of, movers_of, total};
use model_file::ModelFile;

fn is_call(shape: Option<Shape>) -> bool
    ensures answer { result ≡ is_call shape }
{
    matches!(shape, Some(Shape::Call { .. }))
}

// Whether a variable is a parameter of a process.
fn is_parameter(file: &ModelFile<'_>, process: u16, variable: u16) -> bool
    ensures answer { result ≡ is_parameter file.now.bytes.now file.now.layout process variable }
{
    let first = u32::from(file.first(process));
    let number = u32::from(file.number(process));
    (first..first + number).contains(&u32::from(variable))
}

pub(crate) fn node_once(file: &ModelFile<'_>, node: u16) -> bool
    ensures answer { result ≡ node_once file.now.bytes.now file.now.layout node }
{
    let bodies = total(file.process_count(), |i| u16::from(file.body(i) == node));
    let children = total(file.node_count(), |i| children_of(node, shape_at(file, i)));
    bodies + children == 1
}

pub(crate) fn variable_once(file: &ModelFile<'_>, variable: u16) -> bool
    ensures answer { result ≡ variable_once file.now.bytes.now file.now.layout variable }
{
    let parameters = total(
        file.process_count(),
        |i| u16::from(is_parameter(file, i, variable)),
    );
    let binders = total(
        file.node_count(),
        |i| binders_of(variable, shape_at(file, i)),
    );
    parameters + binders == 1
}

// Whether a node is the child of an action or a delay.
fn is_moved(file: &ModelFile<'_>, node: u16) -> bool
    ensures answer { result ≡ moved file.now.bytes.now file.now.layout node }
{
    total(file.node_count(), |i| movers_of(node, shape_at(file, i))) > 0
}

fn is_body(file: &ModelFile<'_>, node: u16) -> bool
    ensures answer { result ≡ body file.now.bytes.now file.now.layout node }
{
    total(file.process_count(), |i| u16::from(file.body(i) == node)) > 0
}

pub(crate) fn call_placed(file: &ModelFile<'_>, node: u16) -> bool
    ensures answer { result ≡ call_placed file.now.bytes.now file.now.layout node }
{
    !is_call(shape_at(file, node)) || is_moved(file, node)
}

// A resting place is a body, or a child of an action or a delay that is no call.
pub(crate) fn is_resting(file: &ModelFile<'_>, node: u16) -> bool
    ensures answer { result ≡ resting file.now.bytes.now file.now.layout node }
{
    is_body(file, node) || is_moved(file, node) && !is_call(shape_at(file, node))
}
