// A writer over a buffer: words, one after another.
ghost use Rattle.std.specs.Prelude.{◌≡◌, ◌∷◌, []};
ghost use Rattle.linear.specs.Layout.{counted};
ghost use Rattle.linear_write.specs.Written.{written, after, HasRoom};

use linear::WordList;
use words::put_word;

// What is written next goes to `at`.
#[derive(Drop)]
pub(crate) struct Writer<'a> {
    pub(crate) out: &'a mut [u8],
    pub(crate) at: usize,
}

impl<'a> Writer<'a> {
    // Begins after the header.
    pub(crate) fn new(out: &'a mut [u8]) -> Writer<'a>
        ensures begins { written result ≡ record { out = out.old; at = 5; lender = out.entry.ghost_name } }
    {
        Writer { out, at: 5 }
    }

    pub(crate) fn put(&mut self, word: u16)
        requires room { HasRoom (written self.old) (word ∷ []) }
        ensures leaves { written self.new ≡ after (written self.old) (word ∷ []) }
    {
        put_word(self.out, self.at, word);
        self.at += 2;
    }

    // The words without a count.
    pub(crate) fn put_words(&mut self, words: &[u16])
        requires room { HasRoom (written self.old) words.now }
        ensures leaves { written self.new ≡ after (written self.old) words.now }
    {
        for word in words {
            self.put(*word);
        }
    }

    // A list with its count in front.
    pub(crate) fn put_list(&mut self, list: &WordList)
        requires room { HasRoom (written self.old) (counted list.now) }
        ensures leaves { written self.new ≡ after (written self.old) (counted list.now) }
    {
        self.put(list.len() as u16);
        self.put_words(list.as_slice());
    }
}
