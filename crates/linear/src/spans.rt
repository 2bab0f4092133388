// How many bytes the parts of a summand take in a file.
ghost use Rattle.std.specs.Prelude.{◌≡◌, ℕ, ◌*◌, ◌≤◌, List, length};
ghost use Rattle.linear.specs.Layout.{guard_words, acts_words, rate_words};

use crate::item::Item;
use crate::summand::{Act, Guard};

impl Guard {
    // How many bytes it takes.
    pub fn span(&self) -> usize
        ensures answer { result ≡ 2 * length (guard_words self.now) }
        ensures small { result ≤ 70 }
    {
        6 + 2 * self.sums.len() + 2 * self.conditions.len()
    }
}

// What a summand does: it acts, or it waits at the rate of an expression.
pub trait Doing: Item + Default {
    // its words in a file
    ghost words: { Self → List ℕ };

    // How many bytes it takes.
    fn span(&self) -> usize
        ensures answer { result ≡ 2 * length (words self.now) }
        ensures small { result ≤ 40 };
}

impl Doing for Act {
    ghost words = { acts_words };

    fn span(&self) -> usize {
        8 + 2 * self.arguments.len()
    }
}

impl Doing for u16 {
    ghost words = { rate_words };

    fn span(&self) -> usize {
        2
    }
}
