//! Theorems on replayed runs.

ghost use Rattle.pt_replay_laws.specs.Between.{VisitsKeep, ReplaysAreLegal};
ghost use Rattle.pt_replay_laws.specs.Ending.{QuietEndsReplay, ReplaysBegin, ReplaysEnd};
ghost use Rattle.pt_replay_laws.specs.OneReplay.{ReplaysAreOne};
ghost use Rattle.pt_replay_laws.specs.Times.{ArrivalsNeverFall, HappensLater, TimeNeverFalls};

/// Between any two visits of a replayed run the turns so far are legal, and what was sent on a link was taken or is on its
/// way, in order, even if a message was late in the last round.
pub fn visits_keep()
    ensures { VisitsKeep }
{}

/// As they are recorded, the histories of a whole replayed run are legal and matched, and linked if all platforms are finished.
pub fn replayed_histories_are_legal()
    ensures { ReplaysAreLegal }
{}

/// Something can happen after the start of a replayed run, unless the graph has no platforms.
pub fn replays_begin()
    ensures { ReplaysBegin }
{}

/// A quiet round of a replayed run after which nothing can happen is its last one, and all platforms are finished.
pub fn quiet_rounds_end_replays()
    ensures { QuietEndsReplay }
{}

/// A replayed run has a bounded number of rounds, as a paced run: after a round in which a platform moves there is at most one
/// that only posts and one that is quiet.
pub fn replays_end()
    ensures { ReplaysEnd }
{}

/// What a replayed run does is a function of the graph, its rows and the recording: two whole replayed runs have the same states,
/// turns and messages, and the same faults, even if a message was late.
pub fn replays_agree()
    ensures { ReplaysAreOne }
{}

/// After a quiet round of a replayed run all that can still happen is later, so the next round is later.
pub fn quiet_rounds_leave_what_is_later()
    ensures { HappensLater }
{}

/// No round of a replayed run is earlier than the one before it.
pub fn true_time_never_falls()
    ensures { TimeNeverFalls }
{}

/// No message of a replayed run overtakes the one before it on its link.
pub fn arrivals_never_fall()
    ensures { ArrivalsNeverFall }
{}
