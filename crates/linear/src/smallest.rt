// A first lawful equation: no variables, one program counter, no summands.
ghost use Rattle.std.specs.Prelude.{◌≡◌};
ghost use Rattle.linear.specs.Equations.{smallest_of};

use crate::equation::Equation;
use crate::fixed::FixedList;
use crate::table::{Table, Vector};

impl Equation {
    // No variables, one program counter at which it starts, and no summands.
    pub fn smallest() -> Equation
        ensures answer { result.table ≡ smallest_of }
    {
        Equation {
            table: Table {
                sizes: FixedList::default(),
                counters: 1,
                first: Vector {
                    counter: 1,
                    values: FixedList::default(),
                },
                actions: FixedList::default(),
                delays: FixedList::default(),
            },
        }
    }
}
