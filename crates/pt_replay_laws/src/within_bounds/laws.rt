//! Theorems on replayed runs whose recorded network keeps to the stated bounds. (What an air file says keeps to them exactly if
//! it has no breach: see `read_air`.)

ghost use Rattle.pt_replay_laws.specs.InBounds.AsPaced.{ReplaysInBoundsAreAsPaced};
ghost use Rattle.pt_replay_laws.specs.InBounds.InBounds.{FaultsInBoundsAreLong, NoneIsLateInBounds, ReplaysInBoundsKeepPace};

/// No message is late in a replayed run within its bounds: not up to any point in any round.
pub fn no_message_is_late_in_bounds()
    ensures { NoneIsLateInBounds }
{}

/// A platform with a fault in a replayed run within its bounds has more firings of units in the meaning than it may claim.
pub fn faults_in_bounds_are_long()
    ensures { FaultsInBoundsAreLong }
{}

/// The histories of a whole replayed run within its bounds keep the paced schedule and do what the meaning does.
pub fn replays_in_bounds_keep_pace()
    ensures { ReplaysInBoundsKeepPace }
{}

/// A recorded network within its stated bounds changes nothing: the replayed run is finished exactly if the paced run is, and
/// then both have the same claims and the same missed entries.
pub fn replays_in_bounds_are_as_paced()
    ensures { ReplaysInBoundsAreAsPaced }
{}
