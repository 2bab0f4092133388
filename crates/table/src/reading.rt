// A table from its file.
ghost use Rattle.std.specs.Prelude.{◌≡◌, IfOk, Ok, Err, MatchResult};
ghost use Rattle.table.specs.Files.{table_language};
ghost use Rattle.table.specs.Records.{meaning_of};
ghost use Rattle.table.specs.Rules.{ReadsAs};

use crate::record::Record;
use crate::table::Table;
use crate::values::{value_count, values};
use language::{DataFault, records};

impl Table {
    // The table of a file, or the file's first fault.
    pub fn read(bytes: &[u8]) -> Result<Table, DataFault>
        ensures answer { MatchResult result (λ t. table_language bytes.now ≡ Ok (meaning_of t.records.items t.values.items)) (λ x. table_language bytes.now ≡ Err x) }
        ensures rules { IfOk result (λ t. ReadsAs bytes.now (meaning_of t.records.items t.values.items)) }
    {
        let records = records::<Record>(bytes)?;
        let total = value_count(bytes, records.len())?;
        let values = values(bytes, 9 + 8 * records.len(), total);
        Ok(Table { records, values })
    }
}
