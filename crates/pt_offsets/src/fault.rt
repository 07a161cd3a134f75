//! Why a graph is not admitted.

use pt_causality::CycleFault;
use std::alloc::AllocError;
use thiserror::Error;

/// Why a graph has no offsets with which it can run.
#[derive(Clone, Copy, Debug, PartialEq, Eq, Error)]
pub enum OffsetFault {
    /// Out of memory.
    #[error("memory")]
    Memory,
    /// Events can reach this sender too late to be sent within its slack: `offset + 1 > slack`, in microseconds. An offset
    /// of 20 needs a slack of at least 21. The sender is the first of this kind in the order of the graph.
    #[error("the sender {send} has a slack of {slack}, not more than its offset {offset}")]
    Infeasible { send: u32, offset: i64, slack: u64 },
}

impl From<AllocError> for OffsetFault {
    ghost use Rattle.std.specs.Prelude.{◌≡◌};
    ghost use Rattle.pt_offsets.specs.declared.fault.OffsetFault.TheVariants.{Memory};

    ghost from_gives = { λ _ fault. fault ≡ Memory };

    fn from(_refused: AllocError) -> OffsetFault {
        OffsetFault::Memory
    }
}

/// Why a graph has no plan. Actors are named by their numbers in the graph, from 0; times are microseconds.
#[derive(Debug, Drop, Error)]
pub enum PlanFault {
    /// Memory ran out for the least delays or the branches.
    #[error("memory")]
    Memory,
    /// The graph has no ranks: it has a cycle that takes no time, or memory ran out for them.
    #[error(transparent)]
    Cycle(CycleFault),
    /// Each cycle takes time, but the graph has no offsets: a sender can't send in time, or memory ran out for them.
    #[error(transparent)]
    Offset(OffsetFault),
}
