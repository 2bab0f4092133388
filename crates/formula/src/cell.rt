// A cell of a formula, and what its operation gives.
ghost use Rattle.std.specs.Prelude.{◌≡◌};
ghost use Rattle.formula.specs.Cells.{applied};
ghost use Rattle.formula.specs.declared.cell.Cell.TheVariants.{Constant};

// An operation on two operands.
#[derive(Clone, Copy, Debug, PartialEq, Eq)]
pub(crate) enum Operation {
    Sum,
    Difference,
    Product,
    Equal,
    Less,
}

impl Operation {
    // What it gives: sums and products at most 65,535, differences at least 0, tests 1 or 0.
    pub(crate) fn apply(self, x: u16, y: u16) -> u16
        ensures answer { result ≡ applied self x y }
    {
        match self {
            Operation::Sum => x.saturating_add(y),
            Operation::Difference => x.saturating_sub(y),
            Operation::Product => x.saturating_mul(y),
            Operation::Equal => u16::from(x == y),
            Operation::Less => u16::from(x < y),
        }
    }
}

// Operands are numbers of cells.
#[derive(Clone, Copy, Debug, PartialEq, Eq)]
pub(crate) enum Cell {
    Constant(u16),
    Variable(u16),
    Binary(Operation, u16, u16),
    // the second operand if the first is not 0, else the third
    Choose(u16, u16, u16),
}

impl Default for Cell {
    ghost is_default = { λ cell. cell ≡ Constant 0 };

    fn default() -> Cell {
        Cell::Constant(0)
    }
}
