// The parts of a summand, and whole summands.
ghost use Rattle.std.specs.Prelude.{◌≡◌, ℕ, ◌+◌, ◌*◌, ◌≤◌, Bool, List, length, Result, IfOk, OnOk};
ghost use Rattle.linear.specs.Equations.{Summand};
ghost use Rattle.linear.specs.Laws.{named_action, named_delay};
ghost use Rattle.linear.specs.Layout.{guard_words};
ghost use Rattle.linear.specs.Reading.{guard_in, acts_in, rate_in, leads_in, entry_of, entries_from, summand_in, summand_end, past};
ghost use Rattle.linear.specs.declared.fault.Place.{Place};
ghost use Rattle.linear.specs.declared.fault.LinearFault.{LinearFault};
ghost use Rattle.linear_read.specs.Spots.{to};
ghost use Rattle.words.specs.Words.{word_at};

use crate::reader::Reader;
use crate::rules::Names;
use linear::{Act, Doing, Entry, EntryList, Guard, LinearFault, Place, Summand, Target};
use words::word_at;

// What a summand does, as it stands in a file, and what a summand that does it has to name.
pub(crate) trait Part: Doing {
    ghost part_in: { List ℕ → Place → ℕ → Result Self LinearFault };

    ghost named: { ℕ → ℕ → Summand Self → Bool };

    fn read(reader: &mut Reader) -> Result<Self, LinearFault>
        ensures answer { result ≡ part_in reader.old.bytes reader.old.place reader.old.at }
        ensures moves { IfOk result (λ d. reader.new ≡ to reader.old (past reader.old.at (Self.words d))) };

    fn is_named(summand: &Summand<Self>, names: Names) -> bool
        ensures answer { result ≡ named names.variables names.counters summand.now };
}

// An action, its arguments, its variable and its weight.
impl Part for Act {
    ghost part_in = { acts_in };

    ghost named = { named_action };

    fn read(reader: &mut Reader) -> Result<Act, LinearFault> {
        let action = reader.word()?;
        let arguments = reader.list(4)?;
        let variable = reader.word()?;
        let weight = reader.word()?;
        Ok(Act {
            action,
            arguments,
            variable,
            weight,
        })
    }

    fn is_named(summand: &Summand<Act>, names: Names) -> bool {
        names.has_guard(&summand.when)
            && names.has_act(&summand.does, &summand.when.sums)
            && names.has_target(&summand.leads)
    }
}

// A rate.
impl Part for u16 {
    ghost part_in = { rate_in };

    ghost named = { named_delay };

    fn read(reader: &mut Reader) -> Result<u16, LinearFault> {
        reader.word()
    }

    fn is_named(summand: &Summand<u16>, names: Names) -> bool {
        names.has_guard(&summand.when) && names.has_target(&summand.leads)
    }
}

// The entry by the two words at a position, or none.
fn entry_at(bytes: &[u8], at: usize) -> Option<Entry>
    requires room { at + 4 ≤ length bytes.now }
    ensures answer { result ≡ entry_of (word_at bytes.now at) (word_at bytes.now (at + 2)) }
{
    Entry::try_from([word_at(bytes, at), word_at(bytes, at + 2)]).ok()
}

impl<'a> Reader<'a> {
    // A program counter, the sum variables and the conditions.
    fn guard(&mut self) -> Result<Guard, LinearFault>
        ensures answer { result ≡ guard_in self.old.bytes self.old.place self.old.at }
        ensures moves { IfOk result (λ g. self.new ≡ to self.old (past self.old.at (guard_words g))) }
    {
        let counter = self.word()?;
        let sums = self.list(8)?;
        let conditions = self.list(8)?;
        Ok(Guard {
            counter,
            sums,
            conditions,
        })
    }

    // The entries of all variables, which are there, or none where one of them is none.
    fn entries(&self) -> Option<EntryList>
        requires room { self.now.at + 4 * self.now.variables ≤ length self.now.bytes }
        ensures answer { result ≡ entries_from self.now.bytes self.now.at self.now.variables }
    {
        let (pairs, _) = self.bytes[self.at..self.at + 4 * self.variables].as_chunks::<4>();
        let mut items = [Entry::Reset; 16];
        for (k, pair) in pairs.iter().enumerate() {
            items[k] = entry_at(pair, 0)?;
        }
        Some(EntryList::new(&items[..self.variables]))
    }

    // The next program counter, and an entry for each variable. Entries of which one is none are left out:
    // that is a fault only when all of the file has kept its limits.
    fn target(&mut self) -> Result<Target, LinearFault>
        ensures answer { result ≡ leads_in self.old.bytes self.old.place self.old.variables self.old.at }
        ensures moves { OnOk result (self.new ≡ to self.old (self.old.at + 2 + 4 * self.old.variables)) }
    {
        let counter = self.word()?;
        if self.bytes.len() - self.at < 4 * self.variables {
            return Err(LinearFault::Length(self.place));
        }
        let entries = self.entries().unwrap_or_default();
        self.at += 4 * self.variables;
        Ok(Target { counter, entries })
    }

    // A whole summand, at this place of the file.
    pub(crate) fn summand<D: Part>(&mut self, place: Place) -> Result<Summand<D>, LinearFault>
        ensures answer { result ≡ summand_in D.part_in D.words self.old.bytes self.old.variables place self.old.at }
        ensures moves { IfOk result (λ s. self.new ≡ record { bytes = self.old.bytes; variables = self.old.variables; place = place; at = summand_end D.part_in D.words self.old.variables self.old.at s }) }
    {
        self.place = place;
        let when = self.guard()?;
        let does = D::read(self)?;
        let leads = self.target()?;
        Ok(Summand { when, does, leads })
    }
}
