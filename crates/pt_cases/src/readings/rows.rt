//! The rows that a platform is opened with.

ghost use Rattle.std.specs.Prelude.{◌≡◌, ◌∷◌, [], true, IfOk};
ghost use Rattle.pt_turn.specs.Handed.{AreHanded, IsHanded};

use pt_sensors::SensorRows;
use pt_tags::List;
use pt_types::{Graph, Kind, Row};
use std::alloc::{AllocError, Global};

/// Whether a row fits an actor: it is a sensor of the platform, and sees the row within its bound and the horizon.
fn fits(graph: &Graph, platform: u32, actor: u32, row: Row) -> bool
    ensures { result ≡ true → IsHanded graph.now platform
        (record { actor = actor; rows = row ∷ [] }) }
{
    match graph.actors.as_slice().get(actor as usize) {
        None => false,
        Some(found) => match &found.kind {
            Kind::Sensor { bound, .. } => {
                found.platform == platform
                    && row.time <= graph.until
                    && row.seen <= row.time.saturating_add(*bound)
            }
            _ => false,
        },
    }
}

/// One row of an actor, where it fits it; otherwise none.
pub fn one_row(
    alloc: Global,
    graph: &Graph,
    platform: u32,
    actor: u32,
    row: Row,
) -> Result<Vec<SensorRows>, AllocError>
    ensures { IfOk result (λ rows. AreHanded graph.now platform rows.items) }
{
    let mut rows = Vec::new(alloc);
    if fits(graph, platform, actor, row) {
        let own = Vec::from_array(alloc, [row])?;
        rows.push(SensorRows {
            actor,
            rows: List::new(own),
        })?;
    }
    Ok(rows)
}
