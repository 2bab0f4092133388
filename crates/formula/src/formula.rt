// A formula: its cells, lawful by their type.
ghost use Rattle.std.specs.Prelude.{◌≡◌, ◌≤◌, true};
ghost use Rattle.arrayvec.specs.ArrayVec.{array_vec_len};
ghost use Rattle.formula.specs.Cells.{lawful};

use crate::cell::Cell;
use arrayvec::ArrayVec;

#[derive(Drop)]
pub struct Formula {
    pub(crate) cells: ArrayVec<Cell, 256>,
    // a law sees of the list its cells alone, and not the bound that its type keeps
    ghost few: { array_vec_len cells ≤ 256 },
    ghost ruled: { lawful cells.items ≡ true },
}
