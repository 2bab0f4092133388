// A formula from its file.
ghost use Rattle.std.specs.Prelude.{◌≡◌, IfOk, Ok, Err, MatchResult};
ghost use Rattle.formula.specs.Cells.{meaning_of};
ghost use Rattle.formula.specs.Files.{formula_language};
ghost use Rattle.formula.specs.Rules.{ReadsAs};

use crate::cell::Cell;
use crate::formula::Formula;
use language::{DataFault, records};

impl Formula {
    // The formula of a file, or the file's first fault.
    pub fn read(bytes: &[u8]) -> Result<Formula, DataFault>
        ensures answer { MatchResult result (λ f. formula_language bytes.now ≡ Ok (meaning_of f.cells.items)) (λ x. formula_language bytes.now ≡ Err x) }
        ensures rules { IfOk result (λ f. ReadsAs bytes.now (meaning_of f.cells.items)) }
    {
        let cells = records::<Cell>(bytes)?;
        if bytes.len() != 7 + 8 * cells.len() {
            return Err(DataFault::Length(0));
        }
        Ok(Formula { cells })
    }
}
