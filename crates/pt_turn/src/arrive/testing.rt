//! Whether a row may come next.

ghost use Rattle.std.specs.Prelude.{◌≡◌, ◌+◌, ◌<◌, ◌≤◌, ℕ, IfErr, MatchOption, OnOk, Some, false, true};
ghost use Rattle.pt_types.specs.Lookups.{kind_of};
ghost use Rattle.pt_turn.specs.Arrives.Arrived.{AreInOrder, IsNext, ShowsUnfit, sensor_bound};

use crate::arrive::unfit::Unfit;
use crate::state::Sensor;
use pt_types::{Graph, Kind, Row};

/// The bound of a sensor, in microseconds; `None` if the actor is no sensor.
fn bound_of(graph: &Graph, actor: u32) -> Option<u64>
    ensures { result ≡ sensor_bound (kind_of graph.now actor) }
{
    match graph.actors.as_slice().get(actor as usize) {
        Some(actor) => match &actor.kind {
            Kind::Sensor { bound, .. } => Some(*bound),
            _ => None,
        },
        None => None,
    }
}

/// The limit that a row is past: its time plus the bound, in microseconds; `None` if it is on time.
fn past_limit(row: Row, bound: u64) -> Option<u64>
    ensures { MatchOption result (row.seen ≤ row.time + bound)
        (λ limit. (limit ≡ row.time + bound) × (limit < row.seen)) }
{
    let limit = row.time.checked_add(bound)?;
    if limit < row.seen { Some(limit) } else { None }
}

/// Whether a reading that was made, in microseconds, sees a row.
fn was_read(last: Option<u64>, row: Row) -> bool
    ensures yes { result ≡ true → (p : ℕ) × (last ≡ Some p) × (row.seen ≤ p) }
    ensures no { result ≡ false → (p : ℕ) → last ≡ Some p → p < row.seen }
{
    match last {
        Some(read) => row.seen <= read,
        None => false,
    }
}

/// Tests whether a row may come next after the rows of a sensor, on a platform with this last reading.
pub fn test(graph: &Graph, sensor: &Sensor, last: Option<u64>, row: Row) -> Result<(), Unfit>
    requires order { AreInOrder sensor.now.rows }
    ensures next { OnOk result (IsNext graph.now sensor.now.actor sensor.now.rows last row) }
    ensures why { IfErr result (ShowsUnfit graph.now sensor.now.actor sensor.now.rows last row) }
{
    let Some(bound) = bound_of(graph, sensor.actor) else {
        return Err(Unfit::NoSensor);
    };
    if row.seen < row.time {
        return Err(Unfit::SeenEarly);
    }
    if graph.until < row.time {
        return Err(Unfit::PastHorizon);
    }
    if let Some(limit) = past_limit(row, bound) {
        return Err(Unfit::Late { limit });
    }
    if was_read(last, row) {
        return Err(Unfit::NotSeenNext);
    }
    let Some(before) = sensor.rows.as_slice().last() else {
        return Ok(());
    };
    if row.time <= before.time {
        return Err(Unfit::NotAfter);
    }
    if row.seen < before.seen {
        return Err(Unfit::NotSeenNext);
    }
    Ok(())
}
