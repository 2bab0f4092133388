// The weights of an action's outcomes.
ghost use Rattle.std.specs.Prelude.{◌≡◌, ◌*◌, ◌≤◌, slice_index};
ghost use Rattle.valuation.specs.Doings.{total_weight};
ghost use Rattle.valuation.specs.Valuations.{listed};

use crate::valuation::Valuation;
use language::{Language, variable_value};

// The sum of the weights over all values of the action's variable.
pub fn total_weight<L: Language>(
    language: &L,
    sizes: &[u16],
    variable: u16,
    weight: u16,
    valuation: &Valuation,
) -> u64
    ensures answer { result ≡ total_weight (L.Language.meaning language.now) sizes.now variable weight (listed valuation.now) }
    ensures small { result ≤ 65535 * slice_index sizes.now variable }
{
    // A `for`: by `map` and `sum`, that the sum fits was not proved.
    let mut sum = 0;
    for value in 0..variable_value(sizes, variable) {
        let set = valuation.with(variable, value);
        sum += u64::from(language.value(weight, set.values()));
    }
    sum
}
