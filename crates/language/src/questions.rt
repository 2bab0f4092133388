// The three questions that every data language answers by its meaning.
ghost use Rattle.std.specs.Prelude.{◌≡◌};
ghost use Rattle.language.specs.Meanings.{Meaning, Lawful};

pub trait Language {
    // how many expressions there are, the value of each, and the variables it names
    ghost meaning: { Self → Meaning };

    // How many expressions there are.
    fn count(&self) -> u16
        ensures answer { result ≡ (meaning self.now).count };

    // The value of an expression; a variable beyond the valuation counts as 0.
    fn value(&self, expression: u16, valuation: &[u16]) -> u16
        ensures answer { result ≡ (meaning self.now).value expression valuation.now };

    // Whether an expression names a variable.
    fn names(&self, expression: u16, variable: u16) -> bool
        ensures answer { result ≡ (meaning self.now).names expression variable };

    ghost lawful: { (l : Self) → Lawful (meaning l) };
}
