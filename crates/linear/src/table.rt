// The parts of an equation, in tables of fixed size.
use crate::fixed::FixedList;
use crate::summand::{ActionSummand, DelaySummand, WordList};
use std::marker::Model;

// A program counter and one value for each variable.
#[derive(Clone, Copy, Default)]
pub struct Vector {
    pub counter: u16,
    pub values: WordList,
}

#[derive(Clone, Copy, Default)]
pub struct Table {
    pub sizes: WordList,
    pub counters: u16,
    pub first: Vector,
    pub actions: FixedList<ActionSummand, 256>,
    pub delays: FixedList<DelaySummand, 256>,
}

// It is seen as the record of its parts, as a summand is.
impl Model for Table {
    ghost use Rattle.linear.specs.Equations.{Linear};

    ghost Value = { Linear };

    ghost view = { λ v. record { sizes = v.sizes; counters = v.counters; first = v.first; actions = v.actions; delays = v.delays } };

    ghost inverse = { λ v. record { sizes = v.sizes; counters = v.counters; first = v.first; actions = v.actions; delays = v.delays } };

    ghost inverse_ok = { λ v _ i. record { sizes = v.sizes; counters = v.counters; first = v.first; actions = v.actions; delays = v.delays } };
}
