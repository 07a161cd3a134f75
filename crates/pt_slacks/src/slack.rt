//! Slacks, and why a graph has none with which it can run.

use pt_tags::List;
use std::alloc::AllocError;
use thiserror::Error;

/// The slack of a sender or an actuator.
#[derive(Clone, Copy, Debug, PartialEq, Eq)]
pub struct Slack {
    /// The number of the actor in the graph, from 0.
    pub actor: u32,
    /// In microseconds.
    pub slack: u64,
}

/// Why there are no least slacks.
#[derive(Debug, Drop, Error)]
pub enum SlackFault {
    /// Memory ran out.
    #[error("memory")]
    Memory,
    /// However great the slacks are, one of these senders can't send in time: from each to the next, and from the last to
    /// the first, the slack that is needed grows, by `gain` microseconds in all. Senders are named by their numbers in the
    /// graph, from 0; the first has the least number.
    #[error("around the senders {sends:?} the slack that is needed grows by {gain}")]
    Ring { sends: List<u32>, gain: u64 },
}

impl From<AllocError> for SlackFault {
    ghost use Rattle.std.specs.Prelude.{◌≡◌};
    ghost use Rattle.pt_slacks.specs.declared.slack.SlackFault.TheVariants.{Memory};

    ghost from_gives = { λ _ fault. fault ≡ Memory };

    fn from(_refused: AllocError) -> SlackFault {
        SlackFault::Memory
    }
}
