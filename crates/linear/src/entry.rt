// What becomes of a variable when a summand is taken, and the two words that say so.
ghost use Rattle.std.specs.Prelude.{◌≡◌};
ghost use Rattle.linear.specs.Layout.{entry_words};
ghost use Rattle.linear.specs.Reading.{ByWords};

#[derive(Clone, Copy, Debug, PartialEq, Eq, Default)]
pub enum Entry {
    // it is 0
    #[default]
    Reset,
    // it keeps its value
    Keep,
    // it takes the value of this expression, cut to the largest it can hold
    Take(u16),
}

// Its kind, and its expression or 0.
impl From<Entry> for [u16; 2] {
    ghost from_gives = { λ entry ws. ws ≡ entry_words entry };

    fn from(entry: Entry) -> [u16; 2] {
        match entry {
            Entry::Reset => [0, 0],
            Entry::Keep => [1, 0],
            Entry::Take(expression) => [2, expression],
        }
    }
}

// The words are those of no entry.
#[derive(Clone, Copy, PartialEq, Eq, Debug)]
pub struct NoEntry;

impl TryFrom<[u16; 2]> for Entry {
    type Error = NoEntry;

    ghost try_from_gives = { λ ws r. ByWords ws r };

    fn try_from(words: [u16; 2]) -> Result<Entry, NoEntry> {
        match words {
            [0, 0] => Ok(Entry::Reset),
            [1, 0] => Ok(Entry::Keep),
            [2, expression] => Ok(Entry::Take(expression)),
            _ => Err(NoEntry),
        }
    }
}
