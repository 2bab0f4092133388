// A linear file that is read from front to back: words, counts and lists.
ghost use Rattle.std.specs.Prelude.{◌≡◌, ◌+◌, ◌*◌, ◌≤◌, length, Ok, Err, IfOk, OnOk, MatchResult, ◌==◌};
ghost use Rattle.words.specs.Headers.{header_of};
ghost use Rattle.linear.specs.Reading.{or_linear_fault, word_in, count_in, words_from, words_in, list_in};
ghost use Rattle.linear_read.specs.Spots.{begun, to};

use linear::{HEAD, LinearFault, Place, WordList};
use std::marker::Model;
use words::{check_header, word_at};

#[derive(Drop)]
pub(crate) struct Reader<'a> {
    pub(crate) bytes: &'a [u8],
    // how many variables the equation has, once that is read
    pub(crate) variables: usize,
    // what a fault names
    pub(crate) place: Place,
    pub(crate) at: usize,
}

impl<'a> Model for Reader<'a> {
    ghost use Rattle.std.specs.Prelude.{◌≤◌, length};
    ghost use Rattle.linear_read.specs.Spots.{Spot};

    ghost Value = { Spot };

    ghost view = { λ r. record { bytes = r.bytes.now; variables = r.variables; place = r.place; at = r.at } };

    ghost invariant = { λ r. (r.at ≤ length r.bytes.now) × (r.variables ≤ 16) };
}

impl<'a> Reader<'a> {
    // Begins after the header of a file.
    pub(crate) fn new(bytes: &'a [u8]) -> Result<Reader<'a>, LinearFault>
        ensures begins { IfOk result (λ r. r ≡ begun bytes.now) }
        ensures answer { MatchResult result (λ _. or_linear_fault (header_of bytes.now) ≡ Ok tt) (λ x. or_linear_fault (header_of bytes.now) ≡ Err x) }
    {
        check_header(bytes)?;
        Ok(Reader {
            bytes,
            variables: 0,
            place: HEAD,
            at: 5,
        })
    }

    // Whether nothing is left.
    pub(crate) fn is_done(&self) -> bool
        ensures answer { result ≡ (self.now.at == length self.now.bytes) }
    {
        self.at == self.bytes.len()
    }

    // The next word, or cut.
    pub(crate) fn word(&mut self) -> Result<u16, LinearFault>
        ensures answer { result ≡ word_in self.old.bytes self.old.place self.old.at }
        ensures moves { OnOk result (self.new ≡ to self.old (self.old.at + 2)) }
    {
        if self.bytes.len() - self.at < 2 {
            return Err(LinearFault::Length(self.place));
        }
        let word = word_at(self.bytes, self.at);
        self.at += 2;
        Ok(word)
    }

    // The next count, between `low` and `high`.
    pub(crate) fn count(&mut self, low: u16, high: u16) -> Result<u16, LinearFault>
        ensures answer { result ≡ count_in self.old.bytes self.old.place low high self.old.at }
        ensures moves { OnOk result (self.new ≡ to self.old (self.old.at + 2)) }
        ensures within { IfOk result (λ n. n ≤ high) }
    {
        let count = self.word()?;
        if !(low..=high).contains(&count) {
            return Err(LinearFault::Limit(self.place));
        }
        Ok(count)
    }

    // So many words from here on, which are there.
    fn words_here(&self, count: usize) -> WordList
        requires few { count ≤ 16 }
        requires room { self.now.at + 2 * count ≤ length self.now.bytes }
        ensures answer { result ≡ words_from self.now.bytes self.now.at count }
        ensures long { length result ≡ count }
    {
        let (words, _) = self.bytes[self.at..self.at + 2 * count].as_chunks::<2>();
        let mut items = [0; 16];
        for (k, word) in words.iter().enumerate() {
            items[k] = u16::from_be_bytes(*word);
        }
        WordList::new(&items[..count])
    }

    // The next so many words.
    fn words(&mut self, count: u16) -> Result<WordList, LinearFault>
        requires few { count ≤ 16 }
        ensures answer { result ≡ words_in self.old.bytes self.old.place count self.old.at }
        ensures moves { IfOk result (λ xs. self.new ≡ to self.old (self.old.at + 2 * length xs)) }
    {
        let count = usize::from(count);
        if self.bytes.len() - self.at < 2 * count {
            return Err(LinearFault::Length(self.place));
        }
        let words = self.words_here(count);
        self.at += 2 * count;
        Ok(words)
    }

    // The next list with its count in front, of at most `most` words.
    pub(crate) fn list(&mut self, most: u16) -> Result<WordList, LinearFault>
        requires few { most ≤ 16 }
        ensures answer { result ≡ list_in self.old.bytes self.old.place most self.old.at }
        ensures moves { IfOk result (λ xs. self.new ≡ to self.old (self.old.at + 2 + 2 * length xs)) }
    {
        let count = self.count(0, most)?;
        self.words(count)
    }
}
