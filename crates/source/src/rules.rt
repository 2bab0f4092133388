// The published rules and the list of derivations: the theorem that the term side is to carry.
ghost use Rattle.source.specs.Published.{ListsAll, StartsInWords};

pub(crate) fn rules_stand()
    ensures rules { ListsAll }
    ensures starts { StartsInWords }
{}
