// The equation of a model keeps what its terms do.
#![tactic(auto)]

ghost use Rattle.behaviour.specs.Claims.{Keeps, BehavesOverSides};
ghost use Rattle.behaviour.specs.Accepted.{Accepts, ByNodes};
ghost use Rattle.behaviour.specs.Behaves.{Counted};
ghost use Rattle.behaviour.specs.Theorem.{EquationBehaves};

// The theorems.
pub fn behaves()
    ensures keeps { Keeps }
    ensures counted { Counted }
    ensures accepts { Accepts }
    ensures nodes { ByNodes }
    ensures behaves { BehavesOverSides }
    ensures equation { EquationBehaves }
{}
