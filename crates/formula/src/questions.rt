// Formulas as a data language.
ghost use Rattle.formula.specs.Cells.{meaning_of};
ghost use Rattle.formula.specs.Files.{formula_language};
ghost use Rattle.formula.specs.Laws.{lawful_language};

use crate::answers::{Names, Value};
use crate::formula::Formula;
use arrayvec::ArrayVec;
use language::{DataFault, FileLanguage, Language};

impl Language for Formula {
    ghost meaning = { λ f. meaning_of f.cells.items };

    ghost lawful = { λ l. lawful_language l.cells.items l.few l.ruled };

    fn count(&self) -> u16 {
        self.cells.len() as u16
    }

    fn value(&self, expression: u16, valuation: &[u16]) -> u16 {
        if expression >= self.count() {
            return 0;
        }
        self.answer(expression, &Value { valuation }, &mut [None; 256])
    }

    fn names(&self, expression: u16, variable: u16) -> bool {
        if expression >= self.count() {
            return false;
        }
        self.answer(expression, &Names { variable }, &mut [None; 256])
    }
}

impl FileLanguage for Formula {
    ghost file = { formula_language };

    fn empty() -> Formula {
        Formula {
            cells: ArrayVec::new(),
        }
    }

    // The trait could give this body only if it had `read` too, and that would be longer.
    fn fill(&mut self, bytes: &[u8]) -> Result<(), DataFault> {
        *self = Formula::read(bytes)?;
        Ok(())
    }
}
