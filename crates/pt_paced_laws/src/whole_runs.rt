//! Theorems about whole paced runs, and that a meaning exists.

ghost use Rattle.pt_paced_laws.specs.Ending.{RoundsEnd};
ghost use Rattle.pt_paced_laws.specs.Existence.{MeaningsExist};
ghost use Rattle.pt_paced_laws.specs.WholeRuns.{AllOnSchedule, AllWithinSlack, ClaimedAsMeant, MissedAsMeant, NoneIsLate, WholeRunsAreOne};

/// A paced run has a bounded number of rounds. Claims, rows, messages and closings are bounded for each platform, and after
/// a round that has one of these there is at most one that only posts and one that is quiet.
pub fn paced_runs_end()
    ensures { RoundsEnd }
{}

/// No recorded turn of a whole paced run is late.
pub fn no_kept_turn_is_late()
    ensures { NoneIsLate }
{}

/// Each unit is claimed at exactly the paced readings of its tags.
pub fn kept_claims_are_on_schedule()
    ensures { AllOnSchedule }
{}

/// No message is sent later than its sender's slack allows.
pub fn kept_messages_are_within_slack()
    ensures { AllWithinSlack }
{}

/// The claims of each unit are the first of its parts of the meaning, and all of them if all platforms are finished.
pub fn kept_claims_are_as_meant()
    ensures { ClaimedAsMeant }
{}

/// If all platforms are finished, the missed entries depend on the meaning and the paced readings alone.
pub fn kept_misses_are_as_meant()
    ensures { MissedAsMeant }
{}

/// The end of a paced run depends on the graph and its rows alone, not on the number of workers.
pub fn whole_runs_are_one()
    ensures { WholeRunsAreOne }
{}

/// A graph that can run has a meaning, for all rows of a run.
pub fn meanings_exist()
    ensures { MeaningsExist }
{}
