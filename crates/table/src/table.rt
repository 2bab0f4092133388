// A table: its records, lawful by their type, and the values that they look up.
ghost use Rattle.std.specs.Prelude.{◌≡◌, ◌≤◌, true};
ghost use Rattle.arrayvec.specs.ArrayVec.{array_vec_len};
ghost use Rattle.table.specs.Records.{lawful};

use crate::record::Record;
use arrayvec::ArrayVec;

#[derive(Drop)]
pub struct Table {
    pub(crate) records: ArrayVec<Record, 256>,
    pub(crate) values: ArrayVec<u16, 4096>,
    // a law sees of the list its records alone, and not the bound that its type keeps
    ghost few: { array_vec_len records ≤ 256 },
    ghost ruled: { lawful records.items ≡ true },
}
