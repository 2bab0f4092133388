// Valuations: one value per variable.
ghost use Rattle.std.specs.Prelude.{◌≡◌};
ghost use Rattle.language.specs.Meanings.{value_at};

// The value of a variable; one beyond the valuation counts as 0.
pub fn variable_value(valuation: &[u16], variable: u16) -> u16
    ensures answer { result ≡ value_at valuation.now variable }
{
    valuation.get(usize::from(variable)).copied().unwrap_or(0)
}
