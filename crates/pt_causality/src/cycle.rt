//! Why a graph has no ranks.

use pt_tags::{List, Memory};
use std::alloc::AllocError;
use thiserror::Error;

/// Why a graph has no ranks.
#[derive(Debug, Drop, Error)]
pub enum CycleFault {
    /// Out of memory.
    #[error("memory")]
    Memory,
    /// A cycle that takes no time: an edge leads from each actor to the
    /// next, and from the last to the first. The first has the least number.
    #[error("the actors {actors:?} are a cycle that takes no time")]
    Cycle { actors: List<u32> },
}

impl From<AllocError> for CycleFault {
    ghost use Rattle.std.specs.Prelude.{◌≡◌};
    ghost use Rattle.pt_causality.specs.declared.cycle.CycleFault.TheVariants.{Memory};

    ghost from_gives = { λ _ fault. fault ≡ Memory };

    fn from(_refused: AllocError) -> CycleFault {
        CycleFault::Memory
    }
}

impl From<Memory> for CycleFault {
    ghost use Rattle.std.specs.Prelude.{◌≡◌};
    ghost use Rattle.pt_causality.specs.declared.cycle.CycleFault.TheVariants.{Memory};

    ghost from_gives = { λ _ fault. fault ≡ Memory };

    fn from(_memory: Memory) -> CycleFault {
        CycleFault::Memory
    }
}
