//! Theorems about paced runs.

ghost use Rattle.pt_paced_laws.specs.PacedTheorems.{PacedAreLegal, PacedIsOne, LongExactly, NoneLate, TimelyWhenPaced, MissedWhenPaced, PacedIsPrefix, MissedIsInMeaning, NoTwoQuiet, QuietEnds};

/// No message is late in a paced run.
pub fn no_message_is_late_when_paced()
    ensures { NoneLate }
{}

/// In a paced run each claim is made and each result posted at exactly its paced reading, and each message is sent in time.
pub fn turns_are_timely_when_paced()
    ensures { TimelyWhenPaced }
{}

/// So in a paced run only actuators can miss, and exactly if their paced reading is past the limit.
pub fn only_actuators_miss_when_paced()
    ensures { MissedWhenPaced }
{}

/// At any time in a paced run the claims of each unit are the
/// first of its parts of the meaning, and all of them at the end.
pub fn paced_claims_are_a_front_of_the_meaning()
    ensures { PacedIsPrefix }
{}

/// In a paced run that is finished the missed entries depend on the meaning and the paced readings alone.
pub fn missed_entries_are_in_the_meaning()
    ensures { MissedIsInMeaning }
{}

/// A paced run has no two quiet rounds without a fault in a row.
pub fn quiet_rounds_stand_alone()
    ensures { NoTwoQuiet }
{}

/// After a quiet round in which all platforms are closed the run ends.
pub fn quiet_rounds_end_runs()
    ensures { QuietEnds }
{}

/// A paced run stops for too many claims only if the meaning has more unit
/// firings on a platform than it may claim, and finishes only if it has not.
pub fn long_runs_are_in_the_meaning()
    ensures { LongExactly }
{}

/// The histories of the paced rounds depend on the program and its rows alone, not on the number of workers.
pub fn paced_histories_are_one()
    ensures { PacedIsOne }
{}

/// As they are recorded, the histories of a whole paced run are
/// legal and matched, and linked if all platforms are finished.
pub fn paced_histories_are_legal()
    ensures { PacedAreLegal }
{}
