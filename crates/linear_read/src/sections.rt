// The two sections of summands: a count in front of each.
ghost use Rattle.std.specs.Prelude.{◌≡◌, ◌≤◌, [], Ok, Err, MatchResult, OnOk};
ghost use Rattle.linear.specs.Reading.{summands_from, section_in};

use crate::parts::Part;
use crate::reader::Reader;
use linear::{FixedList, Group, LinearFault, Place, Summand};

impl<'a> Reader<'a> {
    // The next so many summands.
    fn summands<D: Part>(
        &mut self,
        group: Group,
        count: u16,
    ) -> Result<FixedList<Summand<D>, 256>, LinearFault>
        requires few { count ≤ 256 }
        ensures answer { MatchResult result
            (λ ss. summands_from D.part_in D.words self.old.bytes self.old.variables group count 0 self.old.at [] ≡ Ok (ss, self.new.at))
            (λ x. summands_from D.part_in D.words self.old.bytes self.old.variables group count 0 self.old.at [] ≡ Err x) }
        ensures bytes { OnOk result (self.new.bytes ≡ self.old.bytes) }
        ensures variables { OnOk result (self.new.variables ≡ self.old.variables) }
    {
        let mut items = FixedList::default();
        for k in 0..count {
            let summand = self.summand(Place { group, summand: k })?;
            items.push(summand);
        }
        Ok(items)
    }

    // A section of at most so many summands.
    pub(crate) fn section<D: Part>(
        &mut self,
        group: Group,
        most: u16,
    ) -> Result<FixedList<Summand<D>, 256>, LinearFault>
        requires few { most ≤ 256 }
        ensures answer { MatchResult result
            (λ ss. section_in D.part_in D.words self.old.bytes self.old.variables group most self.old.at ≡ Ok (ss, self.new.at))
            (λ x. section_in D.part_in D.words self.old.bytes self.old.variables group most self.old.at ≡ Err x) }
        ensures bytes { OnOk result (self.new.bytes ≡ self.old.bytes) }
        ensures variables { OnOk result (self.new.variables ≡ self.old.variables) }
    {
        self.place = Place { group, summand: 0 };
        let count = self.count(0, most)?;
        self.summands(group, count)
    }
}
