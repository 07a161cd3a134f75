//! The order of the meaning.

use pt_tags::Time;

/// The place of a firing in the meaning: moments are ordered as the firings are, by time, step, rank and actor.
#[derive(Clone, Copy, Debug, PartialEq, Eq, PartialOrd, Ord)]
pub struct Moment {
    /// Microseconds of model time.
    pub time: Time,
    pub step: u64,
    pub rank: u32,
    pub actor: u32,
}
