//! The faults of a sensor file.

use pt_tags::Memory;
use std::alloc::AllocError;

/// The first fault of a sensor file. Row numbers are from 1.
#[derive(Clone, Copy, Debug, PartialEq, Eq)]
pub enum RowFault {
    /// Out of memory.
    Memory,
    /// The file has more bytes than its limits allow.
    TooLong,
    /// There is no first record, or it is not `time`, `seen`, `value`.
    Header,
    /// The row does not have three fields.
    Fields(u32),
    /// A field is not a number, or the number is out of its range.
    Number(u32),
    /// The row's time is not greater than that of the row before.
    TimeOrder(u32),
    /// The row is seen earlier than the row before.
    SeenOrder(u32),
    /// The row is seen earlier than its time.
    SeenEarly(u32),
    /// A record follows as many rows as the limits allow, and these have no fault.
    TooManyRows,
}

impl From<AllocError> for RowFault {
    ghost use Rattle.std.specs.Prelude.{◌≡◌};
    ghost use Rattle.pt_sensors.specs.declared.fault.RowFault.TheVariants.{Memory};

    ghost from_gives = { λ _ fault. fault ≡ Memory };

    fn from(_refused: AllocError) -> RowFault {
        RowFault::Memory
    }
}

impl From<Memory> for RowFault {
    ghost use Rattle.std.specs.Prelude.{◌≡◌};
    ghost use Rattle.pt_sensors.specs.declared.fault.RowFault.TheVariants.{Memory};

    ghost from_gives = { λ _ fault. fault ≡ Memory };

    fn from(_memory: Memory) -> RowFault {
        RowFault::Memory
    }
}
