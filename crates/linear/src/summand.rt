// Summands: those that act and those that wait, of one type that differs in what they do. Each of the structs is seen as
// the record of its parts. It has a model for that alone: a struct without one that holds a list, which has one, could not
// be passed by value and used again.
ghost use Rattle.std.specs.Prelude.{◌≡◌, ⊤};

use crate::entry::Entry;
use crate::fixed::FixedList;
use crate::item::Item;
use std::alloc::AllocError;
use std::marker::Model;

// A short list of words.
pub type WordList = FixedList<u16, 16>;

// One entry for each variable.
pub type EntryList = FixedList<Entry, 16>;

// When a summand may be taken: at its program counter, for values of its sums that meet all conditions.
#[derive(Clone, Copy, Default)]
pub struct Guard {
    pub counter: u16,
    pub sums: WordList,
    pub conditions: WordList,
}

impl Model for Guard {
    ghost use Rattle.linear.specs.Equations.{Guarded};

    ghost Value = { Guarded };

    ghost view = { λ v. record { counter = v.counter; sums = v.sums; conditions = v.conditions } };

    ghost inverse = { λ v. record { counter = v.counter; sums = v.sums; conditions = v.conditions } };

    ghost inverse_ok = { λ v _ i. record { counter = v.counter; sums = v.sums; conditions = v.conditions } };
}

// An action with its arguments, and an outcome with this weight for each value of the variable.
#[derive(Clone, Copy, Default)]
pub struct Act {
    pub action: u16,
    pub arguments: WordList,
    pub variable: u16,
    pub weight: u16,
}

impl Model for Act {
    ghost use Rattle.linear.specs.Equations.{Acts};

    ghost Value = { Acts };

    ghost view = { λ v. record { action = v.action; arguments = v.arguments; variable = v.variable; weight = v.weight } };

    ghost inverse = { λ v. record { action = v.action; arguments = v.arguments; variable = v.variable; weight = v.weight } };

    ghost inverse_ok = { λ v _ i. record { action = v.action; arguments = v.arguments; variable = v.variable; weight = v.weight } };
}

// Where a summand leads: the next program counter, and an entry for each variable.
#[derive(Clone, Copy, Default)]
pub struct Target {
    pub counter: u16,
    pub entries: EntryList,
}

impl Model for Target {
    ghost use Rattle.linear.specs.Equations.{Leads};

    ghost Value = { Leads };

    ghost view = { λ v. record { counter = v.counter; entries = v.entries } };

    ghost inverse = { λ v. record { counter = v.counter; entries = v.entries } };

    ghost inverse_ok = { λ v _ i. record { counter = v.counter; entries = v.entries } };
}

// When it may be taken, what it does, and where it leads.
#[derive(Default)]
pub struct Summand<D: Item> {
    pub when: Guard,
    pub does: D,
    pub leads: Target,
}

impl<D: Item> Model for Summand<D> {
    ghost use Rattle.linear.specs.Equations.{Summand};

    ghost Value = { Summand D };

    ghost view = { λ v. record { when = v.when; does = v.does; leads = v.leads } };

    ghost inverse = { λ v. record { when = v.when; does = v.does; leads = v.leads } };

    ghost inverse_ok = { λ v _ i. record { when = v.when; does = v.does; leads = v.leads } };
}

impl<D: Item> Copy for Summand<D> {}

impl<D: Item> Clone for Summand<D> {
    ghost is_clone = { λ s copy. copy ≡ s };

    ghost is_infallible = { λ _. ⊤ };

    fn clone(&self) -> Result<Self, AllocError> {
        Ok(*self)
    }
}

// A summand that acts.
pub type ActionSummand = Summand<Act>;

// A summand that waits, at the rate of this expression.
pub type DelaySummand = Summand<u16>;
