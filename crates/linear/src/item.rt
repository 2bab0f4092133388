// What may stand in a list of fixed size, and what lies in a place of it that holds no item.
ghost use Rattle.std.specs.Prelude.{◌≡◌};
ghost use Rattle.linear.specs.Blanks.{no_acts, no_summand};
ghost use Rattle.linear.specs.declared.entry.Entry.TheVariants.{Reset};

use crate::entry::Entry;
use crate::summand::{Act, Guard, Summand, Target};

pub trait Item: Copy {
    // what lies in a place without an item
    ghost blank: { Self };

    fn blank() -> Self
        ensures answer { result ≡ blank };
}

impl Item for u16 {
    ghost blank = { 0 };

    fn blank() -> u16 {
        0
    }
}

impl Item for Entry {
    ghost blank = { Reset };

    fn blank() -> Entry {
        Entry::Reset
    }
}

impl Item for Act {
    ghost blank = { no_acts };

    fn blank() -> Act {
        Act::default()
    }
}

impl<D: Item> Item for Summand<D> {
    ghost blank = { no_summand D.blank };

    fn blank() -> Summand<D> {
        Summand {
            when: Guard::default(),
            does: D::blank(),
            leads: Target::default(),
        }
    }
}
