// Tables as a data language.
ghost use Rattle.table.specs.Files.{table_language};
ghost use Rattle.table.specs.Records.{meaning_of};
ghost use Rattle.table.specs.Laws.{lawful_language};

use crate::table::Table;
use arrayvec::ArrayVec;
use language::{DataFault, FileLanguage, Language, variable_value};

impl Language for Table {
    ghost meaning = { λ t. meaning_of t.records.items t.values.items };

    ghost lawful = { λ l. lawful_language l.records.items l.values.items l.few l.ruled };

    fn count(&self) -> u16 {
        self.records.len() as u16
    }

    fn value(&self, expression: u16, valuation: &[u16]) -> u16 {
        let Some(record) = self.records.get(usize::from(expression)) else {
            return 0;
        };
        let a = usize::from(variable_value(valuation, record.a));
        let b = usize::from(variable_value(valuation, record.b));
        let at = usize::from(record.start) + a * usize::from(record.m) + b;
        self.values.get(at).copied().unwrap_or(0)
    }

    fn names(&self, expression: u16, variable: u16) -> bool {
        let record = self.records.get(usize::from(expression));
        record.is_some_and(|record| record.a == variable || record.b == variable)
    }
}

impl FileLanguage for Table {
    ghost file = { table_language };

    fn empty() -> Table {
        Table {
            records: ArrayVec::new(),
            values: ArrayVec::new(),
        }
    }

    // The trait could give this body only if it had `read` too, and that would be longer.
    fn fill(&mut self, bytes: &[u8]) -> Result<(), DataFault> {
        *self = Table::read(bytes)?;
        Ok(())
    }
}
