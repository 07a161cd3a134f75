//! When a result was posted.

use pt_tags::Reading;

/// When a result was posted.
#[derive(Clone, Copy, Debug, PartialEq, Eq)]
pub struct PostedAt {
    /// The turn, counted from 0: where a search for the next result begins.
    pub turn: usize,
    /// The last reading of that turn, in microseconds.
    pub reading: Reading,
}
