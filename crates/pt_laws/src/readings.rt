//! Theorems about paced readings.

ghost use Rattle.pt_laws.specs.NearClocks.{NearIsClosed};
ghost use Rattle.pt_laws.specs.PacedReadings.{PacedAlongPaths, PacedIsClosed};

/// If an event leads to a second one by a path, its paced reading isn't later than that of the second.
pub fn paced_readings_rise_along_paths()
    ensures { PacedAlongPaths }
{}

/// The units and tags whose paced reading is at most c depend on no unit and tag whose paced reading is later.
pub fn paced_readings_are_closed()
    ensures { PacedIsClosed }
{}

/// The same where each platform has a reading of its own, and those of a link's ends are within their clock error.
pub fn near_readings_are_closed()
    ensures { NearIsClosed }
{}
