// How often a node is a body or a child, and a variable is bound.
ghost use Rattle.std.specs.Prelude.{◌≡◌, ◌*◌, ◌≤◌};
ghost use Rattle.model_rules.specs.Calls.{Computes};
ghost use Rattle.model_rules.specs.Tallies.{children, movers, binders, total};

use crate::shape::{Shape, shape_at};
use model_file::ModelFile;

// The shares of the first `count` records together.
pub(crate) fn total<F: Fn(u16) -> u16>(count: u16, share: F) -> usize
    requires callable { F.IsAlwaysCallable share }
    ensures answer { (f : _) → Computes count (F.post share) f → result ≡ total f count 0 }
    ensures small { result ≤ 65536 * count }
{
    // A `for`: that the answers of a closure that is passed in have a `sum` that fits is not proved of `map` and `sum`.
    let mut sum = 0;
    for i in 0..count {
        sum += usize::from(share(i));
    }
    sum
}

pub(crate) fn children_of(node: u16, shape: Option<Shape>) -> u16
    ensures answer { result ≡ children node shape }
{
    match shape {
        None | Some(Shape::Call { .. }) => 0,
        Some(Shape::Choice { left, right }) => u16::from(left == node) + u16::from(right == node),
        Some(
            Shape::Condition { child, .. }
            | Shape::Sum { child, .. }
            | Shape::Action { child, .. }
            | Shape::Delay { child, .. },
        ) => u16::from(child == node),
    }
}

pub(crate) fn movers_of(node: u16, shape: Option<Shape>) -> u16
    ensures answer { result ≡ movers node shape }
{
    match shape {
        Some(Shape::Action { child, .. } | Shape::Delay { child, .. }) => u16::from(child == node),
        _ => 0,
    }
}

pub(crate) fn binders_of(bound: u16, shape: Option<Shape>) -> u16
    ensures answer { result ≡ binders bound shape }
{
    match shape {
        Some(Shape::Action { variable, .. } | Shape::Sum { variable, .. }) => u16::from(
            variable == bound,
        ),
        _ => 0,
    }
}
