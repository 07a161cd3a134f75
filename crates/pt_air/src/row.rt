//! The rows of an air file.

ghost use Rattle.std.specs.Prelude.{◌≡◌};

use pt_tags::Time;

/// What a row is about.
#[derive(Clone, Copy, Debug, PartialEq, Eq)]
pub enum Subject {
    /// The clock of the platform with this number.
    Platform(usize),
    /// A message on the link with this number.
    Link(usize),
}

/// A row: the lag of a clock or the transit of a message, in microseconds.
#[derive(Clone, Copy, Debug, PartialEq, Eq)]
pub struct AirRow {
    pub subject: Subject,
    pub time: Time,
}

impl AirRow {
    ghost use Rattle.pt_air.specs.Rows.{is_lag_of, is_transit_on};

    /// Whether the row is the lag of this platform.
    pub fn is_lag_of(&self, platform: usize) -> bool
        ensures { result ≡ is_lag_of platform self.now }
    {
        self.subject == Subject::Platform(platform)
    }

    /// Whether the row is a transit on this link.
    pub fn is_transit_on(&self, link: usize) -> bool
        ensures { result ≡ is_transit_on link self.now }
    {
        self.subject == Subject::Link(link)
    }
}
