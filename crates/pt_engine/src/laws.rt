//! Theorems on visits by an engine that owns all platforms.

ghost use Rattle.pt_engine.specs.MoreShown.{ShownGrows};
ghost use Rattle.pt_engine.specs.Showing.{MayComeTo, StartShows, VisitShows};

/// Platforms just opened, empty pipes and no pending results represent the start.
pub fn start_shows()
    ensures { StartShows }
{}

/// A platform may take the messages that are on their way to it.
pub fn may_come()
    ensures { MayComeTo }
{}

/// A visit by an engine, at any reading and with any number of claims, is a visit by the definitions, even if a message was
/// late; if none was, the platforms, pipes and pending results represent what is after it.
pub fn visit_shows()
    ensures { VisitShows }
{}

/// What represents all platforms still does, over the rows with one more that arrived on its platform.
pub fn shown_grows()
    ensures { ShownGrows }
{}
