// Data files: what they all begin with, and languages that can be filled from one.
ghost use Rattle.std.specs.Prelude.{◌≡◌, ℕ, ◌≤◌, List, IfOk, Result};
ghost use Rattle.language.specs.Files.{count_of, answer_of, Leaves};
ghost use Rattle.language.specs.Meanings.{Meaning, nothing};
ghost use Rattle.language.specs.declared.fault.DataFault.{DataFault};

use crate::fault::DataFault;
use crate::questions::Language;
use words::{check_header, word_at};

const MOST_EXPRESSIONS: u16 = 256;

pub trait FileLanguage: Language {
    // the language that a data file describes, or the first fault of the file
    ghost file: { List ℕ → Result Meaning DataFault };

    // A language of no expressions, to be filled.
    fn empty() -> Self
        ensures answer { Self.Language.meaning result ≡ nothing };

    // Becomes the language of a data file; a refusal leaves this one as it was.
    fn fill(&mut self, bytes: &[u8]) -> Result<(), DataFault>
        ensures answer { result ≡ answer_of (file bytes.now) }
        ensures leaves { Leaves (file bytes.now) Self.Language.meaning self.old self.new };
}

// The count of expressions, which follows the header of every data file.
pub fn record_count(bytes: &[u8]) -> Result<u16, DataFault>
    ensures answer { result ≡ count_of bytes.now }
    ensures room { IfOk result (λ n. n ≤ 256) }
{
    check_header(bytes)?;
    if bytes.len() < 7 {
        return Err(DataFault::Length(0));
    }
    let count = word_at(bytes, 5);
    if count > MOST_EXPRESSIONS {
        return Err(DataFault::Rule(0));
    }
    Ok(count)
}
