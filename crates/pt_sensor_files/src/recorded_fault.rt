//! Why the rows of the sensors could not be read.

ghost use Rattle.std.specs.Prelude.{◌≡◌};
ghost use Rattle.pt_sensor_files.specs.Faults.{fault_of_sensor};

use pt_sensors::RowFault;
use pt_tags::Reading;
use thiserror::Error;

/// Whether late rows are faults.
#[derive(Clone, Copy, Debug, PartialEq, Eq)]
pub enum LateRows {
    /// A late row is a fault.
    Refused,
    /// A late row is taken like any other.
    Taken,
}

/// Why there are no rows. `sensor` and `actor` are numbers in the graph, from 0.
#[derive(Clone, Copy, Debug, PartialEq, Eq, Error)]
pub enum RecordedFault {
    /// Out of memory.
    #[error("memory")]
    Memory,
    /// The sensor's file couldn't be read.
    #[error("the file of actor {sensor} could not be read")]
    Read {
        sensor: u32,
    },
    /// The sensor's file has a fault.
    #[error("the file of actor {actor}: {fault}")]
    Sensor {
        actor: u32,
        fault: RowFault,
    },
    /// Row `row`, from 1, is late: it is seen at `seen`, after `limit`,
    /// its time plus the sensor's bound. Both are in microseconds.
    #[error("row {row} of actor {actor} is late: seen at {seen}, past {limit}")]
    Late {
        actor: u32,
        row: u32,
        seen: Reading,
        limit: u64,
    },
}

/// The fault for a fault of the file of a sensor.
pub fn fault_of_rows(actor: u32, fault: RowFault) -> RecordedFault
    ensures { result ≡ fault_of_sensor actor fault }
{
    match fault {
        RowFault::Memory => RecordedFault::Memory,
        _ => RecordedFault::Sensor { actor, fault },
    }
}
