// The head of a linear file: sizes, number of program counters, first vector.
ghost use Rattle.std.specs.Prelude.{◌≡◌, ℕ, ◌+◌, ◌*◌, ◌≤◌, Bool, [], length, IfOk};
ghost use Rattle.linear.specs.Faults.{head};
ghost use Rattle.linear.specs.Reading.{kept_from, head_in, size_rule, value_rule};
ghost use Rattle.linear_read.specs.Spots.{begun, to};

use crate::reader::Reader;
use linear::{HEAD, LinearFault, Vector, WordList};

// What each word of a list in the head keeps.
trait HeadRule {
    ghost rule: { Self → ℕ → ℕ → Bool };

    fn keeps(&self, index: u16, word: u16) -> bool
        ensures answer { result ≡ rule self.now index word };
}

// It is a size.
struct IsSize;

impl HeadRule for IsSize {
    ghost rule = { λ _. size_rule };

    fn keeps(&self, _index: u16, word: u16) -> bool {
        (1..=256).contains(&word)
    }
}

// It is below the size at its place.
impl HeadRule for WordList {
    ghost rule = { value_rule };

    fn keeps(&self, index: u16, word: u16) -> bool {
        word < self.get_or(usize::from(index), 0)
    }
}

impl<'a> Reader<'a> {
    // The next so many words, each keeping the rule.
    fn kept_words<K: HeadRule>(&mut self, rule: &K, count: u16) -> Result<WordList, LinearFault>
        requires few { count ≤ 16 }
        requires place { self.old.place ≡ head }
        ensures answer { result ≡ kept_from (K.rule rule.now) self.old.bytes count 0 self.old.at [] }
        ensures moves { IfOk result (λ ws. self.new ≡ to self.old (self.old.at + 2 * count)) }
        ensures long { IfOk result (λ ws. length ws ≡ count) }
    {
        let mut items = WordList::default();
        for k in 0..count {
            let word = self.word()?;
            if !rule.keeps(k, word) {
                return Err(LinearFault::Limit(HEAD));
            }
            items.push(word);
        }
        Ok(items)
    }

    // The sizes of the variables, the number of program counters and the first vector.
    pub(crate) fn head(&mut self) -> Result<(WordList, u16, Vector), LinearFault>
        requires begins { self.old ≡ begun self.old.bytes }
        ensures answer { result ≡ head_in self.old.bytes }
        ensures moves { IfOk result (λ h. self.new ≡ record { bytes = self.old.bytes; variables = length h.0; place = head; at = 11 + 4 * length h.0 }) }
    {
        let variables = self.count(0, 16)?;
        let sizes = self.kept_words(&IsSize, variables)?;
        let counters = self.count(1, 256)?;
        let counter = self.word()?;
        let values = self.kept_words(&sizes, variables)?;
        self.variables = usize::from(variables);
        Ok((sizes, counters, Vector { counter, values }))
    }
}
