// Worked examples, as equations that the definitions keep.
#![tactic(auto)]

ghost use Rattle.worked_examples.specs.Examples.{Worked};

pub fn worked_examples()
    ensures examples { Worked }
{}
