//! Theorems about cycles, ranks and levels.

ghost use Rattle.pt_semantics.specs.CycleTheorems.{RanksAreOne, LevelsAreOne, RanksExist, LevelsExist, LevelsForbidCycles, LevelsAreSmall};

/// If each cycle takes time, each actor has a rank: there is a longest path of no delay that ends at it.
pub fn ranks_exist()
    ensures { RanksExist }
{}

/// If each cycle takes time, each actor has a level: there is a longest path of no time that ends at it.
pub fn levels_exist()
    ensures { LevelsExist }
{}

/// If actors have levels, each cycle takes time.
pub fn levels_forbid_cycles()
    ensures { LevelsForbidCycles }
{}

/// No level is more than the number of actors: a path of no time visits no actor twice.
pub fn levels_are_small()
    ensures { LevelsAreSmall }
{}

/// An actor has at most one rank.
pub fn ranks_are_one()
    ensures { RanksAreOne }
{}

/// An actor has at most one level.
pub fn levels_are_one()
    ensures { LevelsAreOne }
{}
