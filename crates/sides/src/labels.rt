// The label of an action: its number and the values of its arguments.
ghost use Rattle.std.specs.Prelude.{◌≡◌, take};
ghost use Rattle.sides.specs.Labels.{labelled};
ghost use Rattle.valuation.specs.Valuations.{listed};

use language::Language;
use system::Label;
use valuation::Valuation;

const MOST_ARGUMENTS: usize = 4;

// The first four arguments count; a lawful move has no more.
pub fn label<L: Language>(
    language: &L,
    action: u16,
    arguments: &[u16],
    valuation: &Valuation,
) -> Label
    ensures answer { result ≡ labelled (L.Language.meaning language.now) action (take 4 arguments.now) (listed valuation.now) }
{
    let count = arguments.len().min(MOST_ARGUMENTS);
    let mut values = [0u16; MOST_ARGUMENTS];
    // By place: of what is written through `zip` with `iter_mut` nothing is known.
    for (i, argument) in arguments[..count].iter().enumerate() {
        values[i] = language.value(*argument, valuation.values());
    }
    Label {
        action,
        count,
        values,
    }
}
