//! Why a platform stops.

use pt_tags::{Reading, Tag};
use thiserror::Error;

/// Why a platform makes no more turns.
#[derive(Clone, Copy, Debug, PartialEq, Eq, Error)]
pub enum TurnFault {
    /// A message for this receiver was late: the last reading before the turn was past `limit`, the tag's time plus the
    /// link's bound. All are microseconds. With time 50 and bound 10, `limit` is 60, and a reading of 61 is past it.
    #[error("a message for actor {actor} at {time}.{step} is late: read at {reading}, past {limit}", time = .tag.time, step = .tag.step)]
    Late {
        actor: u32,
        tag: Tag,
        reading: Reading,
        limit: u64,
    },
    /// All claims were made, and a unit is still safe.
    #[error("all claims were made, and a unit is still safe")]
    Long,
}
