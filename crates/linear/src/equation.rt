// A linear equation, lawful by its type.
ghost use Rattle.std.specs.Prelude.{◌≡◌, true, ⊤};
ghost use Rattle.linear.specs.Laws.{lawful};

use crate::table::Table;
use std::alloc::AllocError;

pub struct Equation {
    pub table: Table,
    ghost lawful: { lawful table ≡ true },
}

impl Copy for Equation {}

// The clone is equal to the equation, which keeps it lawful. All of it lies in the value itself, so no memory can be wanting.
impl Clone for Equation {
    ghost is_clone = { λ e copy. copy ≡ e };

    ghost is_infallible = { λ _. ⊤ };

    fn clone(&self) -> Result<Equation, AllocError> {
        Ok(*self)
    }
}
