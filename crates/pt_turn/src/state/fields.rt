//! The state of a platform, as plain fields.

use crate::state::open_claims::OpenClaims;
use crate::state::outbox::Outbox;
use pt_queue::Queue;
use pt_tags::{List, Reading};
use pt_types::{Row, Task, Unit};

/// A claim whose result is not posted yet, and its unit.
#[derive(Clone, Copy)]
pub struct OpenClaim {
    pub unit: Unit,
    pub task: Task,
}

/// The rows of a sensor; the first `entered` of them have entered.
#[derive(Drop)]
pub struct Sensor {
    /// The sensor's number among the actors of the graph, from 0.
    pub actor: u32,
    pub rows: List<Row>,
    pub entered: usize,
}

/// The state of a platform, except for the messages that it took.
#[derive(Drop)]
pub struct Fields {
    /// The events that wait at inputs.
    pub queue: Queue,
    /// The claims whose results are not posted yet.
    pub open_claims: OpenClaims,
    /// The state of each actor of the graph.
    pub states: Vec<i64>,
    /// The platform's sensors, in the order of the graph.
    pub sensors: Vec<Sensor>,
    /// The messages not sent yet, by link.
    pub outbox: Outbox,
    /// The clock reading of the last turn, in microseconds; `None` before the first.
    pub reading: Option<Reading>,
    /// Whether the platform has closed: no event can still come.
    pub closed: bool,
    /// The number of claims made so far.
    pub claims: u64,
    /// At no reading below this one is a unit safe, in microseconds; 0 if that isn't known.
    pub none_safe_before: u64,
}
