//! The rows of one sensor.

use pt_tags::List;
use pt_types::Row;

/// The rows of a sensor, in the order of their times.
#[derive(Drop)]
pub struct SensorRows {
    /// The number of the sensor among the actors of the graph.
    pub actor: u32,
    /// The rows of the sensor.
    pub rows: List<Row>,
}
