// Whether conditions hold under a valuation.
ghost use Rattle.std.specs.Prelude.{◌≡◌};
ghost use Rattle.valuation.specs.Valuations.{holds, all_hold, listed};

use crate::valuation::Valuation;
use language::Language;

pub fn holds<L: Language>(language: &L, condition: u16, valuation: &Valuation) -> bool
    ensures answer { result ≡ holds (L.Language.meaning language.now) condition (listed valuation.now) }
{
    language.value(condition, valuation.values()) != 0
}

pub fn all_hold<L: Language>(language: &L, conditions: &[u16], valuation: &Valuation) -> bool
    ensures answer { result ≡ all_hold (L.Language.meaning language.now) conditions.now (listed valuation.now) }
{
    conditions
        .iter()
        .all(|condition| holds(language, *condition, valuation))
}
