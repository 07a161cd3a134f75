//! Rows of sensors.

use pt_tags::{Reading, Time};

/// A row: an event of a sensor.
#[derive(Clone, Copy, Debug, PartialEq, Eq)]
pub struct Row {
    /// The time of the event, in microseconds of model time.
    pub time: Time,
    /// The clock reading at which the platform sees it, in microseconds.
    pub seen: Reading,
    pub value: i64,
}

/// A row and the number of its sensor.
#[derive(Clone, Copy, Debug, PartialEq, Eq)]
pub struct RowAt {
    pub sensor: u32,
    pub row: Row,
}
