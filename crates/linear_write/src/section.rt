// The sections of a file that a writer opens: whoever opens one owes its count, and pays it by closing.
ghost use Rattle.std.specs.Prelude.{◌≡◌, ◌+◌, ◌<◌, ◌≤◌, ◌∷◌, [], length, MatchResult};
ghost use Rattle.linear.specs.Layout.{summand_words, section_words};
ghost use Rattle.linear_write.specs.Written.{written, after, paid, add_answer, add_leaves, HasRoom};

use crate::fault::WriteFault;
use crate::lengths::span;
use crate::parts::Part;
use crate::writer::Writer;
use linear::{FixedList, Summand};
use words::put_word;

// An open section: the place of its count, and how many summands were added. It may not be let go.
pub(crate) struct Section {
    pub(crate) at: usize,
    pub(crate) count: u16,
}

impl<'a> Writer<'a> {
    // Opens a section: a place for its count, which is owed from here on.
    pub(crate) fn open(&mut self) -> Section
        requires room { HasRoom (written self.old) (0 ∷ []) }
        ensures place { result.at ≡ self.old.at }
        ensures none { result.count ≡ 0 }
        ensures leaves { written self.new ≡ after (written self.old) (0 ∷ []) }
    {
        let at = self.at;
        self.put(0);
        Section { at, count: 0 }
    }

    // One summand more; refused, and nothing changed, where there is no room for it.
    pub(crate) fn add<D: Part>(
        &mut self,
        section: &mut Section,
        summand: &Summand<D>,
    ) -> Result<(), WriteFault>
        requires within { self.old.at ≤ length self.old.out.now }
        requires few { section.old.count < 65535 }
        ensures answer { result ≡ add_answer (written self.old) (summand_words D.words summand.now) }
        ensures leaves { written self.new ≡ add_leaves (written self.old) (summand_words D.words summand.now) }
        ensures place { section.new.at ≡ section.old.at }
        ensures counts { MatchResult result (λ _. section.new.count ≡ section.old.count + 1) (λ _. section.new.count ≡ section.old.count) }
    {
        if self.out.len() - self.at < span(summand) {
            return Err(WriteFault::Short);
        }
        self.put_summand(summand);
        section.count += 1;
        Ok(())
    }

    // Pays the count of the section.
    pub(crate) fn close(&mut self, section: Section)
        ensures leaves { written self.new ≡ paid (written self.old) section.at section.count }
    {
        let Section { at, count } = section;
        put_word(self.out, at, count);
    }

    // A section: opened, filled and closed.
    pub(crate) fn put_section<D: Part>(&mut self, summands: &FixedList<Summand<D>, 256>)
        requires room { HasRoom (written self.old) (section_words D.words summands.now) }
        ensures leaves { written self.new ≡ after (written self.old) (section_words D.words summands.now) }
    {
        let mut section = self.open();
        for summand in summands.as_slice() {
            // there is room for all of them
            let _ = self.add(&mut section, summand);
        }
        self.close(section);
    }
}
