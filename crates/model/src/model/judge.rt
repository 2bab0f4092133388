// Turning bytes into a model.
ghost use Rattle.std.specs.Prelude.{◌≡◌, Ok, MatchResult};
ghost use Rattle.model.specs.Accept.{judged};
ghost use Rattle.model.specs.File.{file_of};
ghost use Rattle.model.specs.Flat.{flat, smallest_flat};
ghost use Rattle.model.specs.Made.{Made};
ghost use Rattle.model.specs.WellFormed.{WellFormed};
ghost use Rattle.words.specs.Headers.{Iff};

use super::{Draft, Model};
use model_file::{ModelFault, check_sections, locate};
use model_rules::check_rules;

pub fn open<'a>(bytes: &'a [u8]) -> Draft<'a>
    ensures answer { result.bytes.now ≡ bytes.now }
{
    Draft { bytes }
}

fn judge(bytes: &[u8]) -> Result<(), ModelFault>
    ensures answer { result ≡ judged bytes.now }
    ensures rules { Iff (result ≡ Ok tt) (WellFormed bytes.now) }
    ensures written { result ≡ Ok tt → file_of (flat bytes.now) ≡ bytes.now }
    ensures lists { result ≡ Ok tt → Made (flat bytes.now) }
{
    check_sections(bytes)?;
    check_rules(bytes)
}

// Uses the draft up. A refused draft leaves the model as it was.
pub fn accept<'a>(draft: Draft<'a>, into: &mut Model<'a>) -> Result<(), ModelFault>
    ensures answer { result ≡ judged draft.entry.bytes.now }
    ensures leaves { MatchResult result (λ _. into.new.bytes.now ≡ draft.entry.bytes.now) (λ _. into.new ≡ into.old) }
    ensures rules { Iff (result ≡ Ok tt) (WellFormed draft.entry.bytes.now) }
    ensures written { result ≡ Ok tt → file_of (flat draft.entry.bytes.now) ≡ draft.entry.bytes.now }
    ensures lists { result ≡ Ok tt → Made (flat draft.entry.bytes.now) }
{
    let Draft { bytes } = draft;
    judge(bytes)?;
    let layout = locate(bytes);
    *into = Model { bytes, layout };
    Ok(())
}

// One process without parameters: a delay of rate expression 0, then the process again.
const SMALLEST: &[u8; 49] =
    b"\x01\0\0\0\x2c\0\0\0\x01\0\0\0\0\0\0\0\0\0\x01\0\0\0\x02\0\x06\0\0\0\x01\0\0\0\0\0\0\0\x01\0\0\0\0\0\0\0\0\0\0\0\0";

impl<'a> Model<'a> {
    // A first model, for `accept` to fill.
    pub fn smallest() -> Model<'a>
        ensures answer { flat result.bytes.now ≡ smallest_flat }
    {
        Model {
            bytes: SMALLEST,
            layout: locate(SMALLEST),
        }
    }
}
