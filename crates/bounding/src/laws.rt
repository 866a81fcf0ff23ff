// The laws of runs, hulls, records and code sets that contracts elsewhere rest on.
ghost use Rattle.bounding.specs.Laws.{HullsExact, KeepsMembers, MergesLists, MergesPages, RunsExact, TellsMembers};
ghost use Rattle.bounding.specs.Numbers.{NumbersExact};

// Carries them as its contract. It does nothing.
pub fn laws_hold()
    ensures runs { RunsExact }
    ensures hulls { HullsExact }
    ensures lists { MergesLists }
    ensures pages { MergesPages }
    ensures kept { KeepsMembers }
    ensures told { TellsMembers }
    ensures codes { NumbersExact }
{}
