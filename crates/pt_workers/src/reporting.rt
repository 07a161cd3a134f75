//! What the platforms report after a run.

ghost use Rattle.std.specs.Prelude.{length};
ghost use Rattle.pt_engine.specs.Asked.{HaveLegalHistories};
ghost use Rattle.pt_workers.specs.Reported.{IsReportedFault, IsPlaceBelow, IsReported};

use pt_turn::{Platform, TurnFault};

/// The fault of a platform, with the platform's number; `None` if it has no fault.
fn fault_of(platform: &Platform) -> Option<(u32, TurnFault)>
    ensures { IsReportedFault platform.now result }
{
    match platform.fault() {
        Some(fault) => Some((platform.number(), fault)),
        None => None,
    }
}

/// The fault of the platform in this place, with the platform's number; `None` if the place is `None`.
pub(crate) fn fault_at(platforms: &[Platform], place: Option<usize>) -> Option<(u32, TurnFault)>
    requires { IsPlaceBelow (length platforms.now) place }
    ensures { IsReported platforms.now place result }
{
    match place {
        Some(place) => fault_of(&platforms[place]),
        None => None,
    }
}

/// Shows that the recorded turns of each platform are a legal history.
pub(crate) fn show_histories(platforms: &[Platform])
    ensures { HaveLegalHistories platforms.now }
{
    for i in 0..platforms.len() {
        let _ = platforms[i].history();
    }
}
