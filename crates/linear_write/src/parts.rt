// The parts of a summand, and whole summands.
ghost use Rattle.std.specs.Prelude.{◌≡◌};
ghost use Rattle.std.specs.List.{flat_map};
ghost use Rattle.linear.specs.Layout.{guard_words, entry_words, leads_words, summand_words};
ghost use Rattle.linear_write.specs.Written.{written, after, HasRoom};

use crate::writer::Writer;
use linear::{Act, Doing, Entry, Guard, Summand, Target};

// What a summand does, as it is written.
pub(crate) trait Part: Doing {
    fn put(&self, writer: &mut Writer)
        requires room { HasRoom (written writer.old) (Self.words self.now) }
        ensures leaves { written writer.new ≡ after (written writer.old) (Self.words self.now) };
}

// An action, its arguments, its variable and its weight.
impl Part for Act {
    fn put(&self, writer: &mut Writer) {
        writer.put(self.action);
        writer.put_list(&self.arguments);
        writer.put(self.variable);
        writer.put(self.weight);
    }
}

// A rate.
impl Part for u16 {
    fn put(&self, writer: &mut Writer) {
        writer.put(*self);
    }
}

impl<'a> Writer<'a> {
    fn put_guard(&mut self, guard: &Guard)
        requires room { HasRoom (written self.old) (guard_words guard.now) }
        ensures leaves { written self.new ≡ after (written self.old) (guard_words guard.now) }
    {
        self.put(guard.counter);
        self.put_list(&guard.sums);
        self.put_list(&guard.conditions);
    }

    // The two words of an entry.
    fn put_entry(&mut self, entry: Entry)
        requires room { HasRoom (written self.old) (entry_words entry) }
        ensures leaves { written self.new ≡ after (written self.old) (entry_words entry) }
    {
        let [kind, expression] = <[u16; 2]>::from(entry);
        self.put(kind);
        self.put(expression);
    }

    // One entry after another.
    fn put_entries(&mut self, entries: &[Entry])
        requires room { HasRoom (written self.old) (flat_map entry_words entries.now) }
        ensures leaves { written self.new ≡ after (written self.old) (flat_map entry_words entries.now) }
    {
        for entry in entries {
            self.put_entry(*entry);
        }
    }

    fn put_target(&mut self, target: &Target)
        requires room { HasRoom (written self.old) (leads_words target.now) }
        ensures leaves { written self.new ≡ after (written self.old) (leads_words target.now) }
    {
        self.put(target.counter);
        self.put_entries(target.entries.as_slice());
    }

    pub(crate) fn put_summand<D: Part>(&mut self, summand: &Summand<D>)
        requires room { HasRoom (written self.old) (summand_words D.words summand.now) }
        ensures leaves { written self.new ≡ after (written self.old) (summand_words D.words summand.now) }
    {
        self.put_guard(&summand.when);
        summand.does.put(self);
        self.put_target(&summand.leads);
    }
}
