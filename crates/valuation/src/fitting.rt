// Fitting a value to its variable.
ghost use Rattle.std.specs.Prelude.{◌≡◌};
ghost use Rattle.valuation.specs.Valuations.{cut};

use language::variable_value;

// The value, or the largest that the variable can hold; a variable of no size holds 0.
pub fn fit(sizes: &[u16], variable: u16, value: u16) -> u16
    ensures answer { result ≡ cut sizes.now variable value }
{
    value.min(variable_value(sizes, variable).saturating_sub(1))
}
