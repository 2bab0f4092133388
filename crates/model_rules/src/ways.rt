// The limits on the ways down from a resting place.
ghost use Rattle.std.specs.Prelude.{◌≡◌, ◌+◌, ◌*◌, ◌≤◌};
ghost use Rattle.model_rules.specs.Ways.{limits, ways, ways_fit};

use crate::places::is_resting;
use crate::shape::{Shape, shape_at};
use model_file::ModelFile;

const MOST_SUMS: u16 = 8;

const MOST_CONDITIONS: u16 = 8;

const LARGEST_PRODUCT: usize = 65536;

// What a way down has passed: sums, conditions, and the product of the sums' sizes.
#[derive(Clone, Copy)]
struct Way {
    sums: u16,
    conditions: u16,
    product: usize,
}

impl Way {
    fn in_limits(self) -> bool
        ensures answer { result ≡ limits self.sums self.conditions self.product }
    {
        self.sums <= MOST_SUMS
            && self.conditions <= MOST_CONDITIONS
            && self.product <= LARGEST_PRODUCT
    }

    fn past_condition(self) -> Way
        requires { self.conditions ≤ 8 }
        ensures { result ≡ record { sums = self.sums; conditions = self.conditions + 1; product = self.product } }
    {
        Way {
            conditions: self.conditions + 1,
            ..self
        }
    }

    fn past_sum(self, size: u16) -> Way
        requires sums { self.sums ≤ 8 }
        requires product { self.product ≤ 65536 }
        ensures { result ≡ record { sums = self.sums + 1; conditions = self.conditions; product = self.product * size } }
    {
        Way {
            sums: self.sums + 1,
            product: self.product * usize::from(size),
            ..self
        }
    }
}

// Whether every way on from a node, in at most `steps` steps, stays within the limits; so far it was `way`.
// The limits are tested at each node, so that no product is large.
fn ways_fit(file: &ModelFile<'_>, steps: u16, node: u16, way: Way) -> bool
    ensures answer { result ≡ ways file.now.bytes.now file.now.layout steps node way.sums way.conditions way.product }
{
    if !way.in_limits() {
        return false;
    }
    if steps == 0 {
        return true;
    }
    match shape_at(file, node) {
        Some(Shape::Condition { child, .. }) => ways_fit(
            file,
            steps - 1,
            child,
            way.past_condition(),
        ),
        Some(Shape::Choice { left, right }) => ways_fit(file, steps - 1, left, way)
            && ways_fit(file, steps - 1, right, way),
        Some(Shape::Sum { variable, child }) => ways_fit(
            file,
            steps - 1,
            child,
            way.past_sum(file.size(variable)),
        ),
        Some(Shape::Call { .. } | Shape::Action { .. } | Shape::Delay { .. }) | None => true,
    }
}

pub(crate) fn resting_fits(file: &ModelFile<'_>, node: u16) -> bool
    ensures answer { result ≡ ways_fit file.now.bytes.now file.now.layout node }
{
    let none = Way {
        sums: 0,
        conditions: 0,
        product: 1,
    };
    !is_resting(file, node) || ways_fit(file, file.node_count(), node, none)
}
