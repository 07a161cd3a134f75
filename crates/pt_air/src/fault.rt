//! The faults of an air file.

use pt_tags::Memory;

/// The first fault of an air file. Row numbers are from 1.
#[derive(Clone, Copy, Debug, PartialEq, Eq)]
pub enum AirFault {
    /// Out of memory.
    Memory,
    /// The file has more bytes than its limits allow.
    TooLong,
    /// There is no first record, or it is not `what`, `name`, `value`.
    Header,
    /// The row does not have three fields, or the first is neither `lag` nor `transit`.
    Form(u32),
    /// A `lag` names no platform, or a `transit` no sender.
    Unknown(u32),
    /// The last field is not a number, or the number is greater than 10^15.
    Number(u32),
    /// The row is a second `lag` of its platform.
    Repeated(u32),
    /// A record follows as many rows as the limits allow, and these have no fault.
    TooManyRows,
}

impl From<Memory> for AirFault {
    ghost use Rattle.std.specs.Prelude.{◌≡◌};
    ghost use Rattle.pt_air.specs.declared.fault.AirFault.TheVariants.{Memory};

    ghost from_gives = { λ _ fault. fault ≡ Memory };

    fn from(_memory: Memory) -> AirFault {
        AirFault::Memory
    }
}
