// Making a valuation, reading it, setting a variable.
ghost use Rattle.std.specs.Prelude.{◌≡◌, take, slice_set};
ghost use Rattle.valuation.specs.Valuations.{listed};

use crate::valuation::{MOST_VARIABLES, Valuation};

impl Valuation {
    // The first 16 of the values.
    pub fn new(values: &[u16]) -> Valuation
        ensures answer { listed result ≡ take 16 values.now }
    {
        let width = values.len().min(MOST_VARIABLES);
        let mut row = [0u16; MOST_VARIABLES];
        row[..width].copy_from_slice(&values[..width]);
        Valuation { width, values: row }
    }

    pub fn values(&self) -> &[u16]
        ensures answer { result.now ≡ listed self.now }
    {
        &self.values[..self.width]
    }

    // The same but for one variable; one beyond the valuation changes nothing.
    pub fn with(self, variable: u16, value: u16) -> Valuation
        ensures answer { listed result ≡ slice_set (listed self) variable value }
    {
        let mut values = self.values;
        let at = usize::from(variable);
        if at < self.width {
            values[at] = value;
        }
        Valuation {
            width: self.width,
            values,
        }
    }
}
