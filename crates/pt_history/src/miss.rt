//! Missed deadlines.

use pt_tags::{Reading, Tag};

/// A result of an actuator posted, or an event of a sender sent, later than its tag's time plus the actor's slack.
#[derive(Clone, Copy, Debug, PartialEq, Eq)]
pub struct Miss {
    /// The actuator or the sender.
    pub actor: u32,
    pub tag: Tag,
    /// The reading of the turn, in microseconds.
    pub reading: Reading,
    /// The tag's time plus the slack, in microseconds.
    pub limit: u64,
}
